// Words for what the program prints of kinds.
use ir::kind::Kind;
use std::fmt;

// A kind by its name, or by its number.
#[derive(Clone, Copy)]
pub struct KindShown(pub u8);

impl fmt::Display for KindShown {
    fn fmt<W: fmt::Write>(&self, f: &mut fmt::Formatter<W>) -> fmt::Result {
        match (Kind::try_from(self.0), self.0) {
            (Ok(kind), _) => write!(f, "{kind}"),
            (Err(_), 0) => f.write_str("plain"),
            (Err(_), number) => write!(f, "kind {number}"),
        }
    }
}
