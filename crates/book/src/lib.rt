// A book: the tables of rows of one course program. Its making takes all the memory that later calls need. Start with book.rt;
// specs/Of.antt says which model a book stands for. Creating, placing and editing are the crates above.
#![tactic(auto)]

pub mod book;
mod lookup;
mod making;
pub mod table;
pub mod unmade;
