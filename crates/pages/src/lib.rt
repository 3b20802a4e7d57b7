// The page of an operation: all that its family of kinds and its verdict may look at. Start with page.rt; specs/Page.antt says what
// a page has, page/own.rt and page/inner.rt read its parts.
#![tactic(auto)]

mod by_number;
pub mod page;
