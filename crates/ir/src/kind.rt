// The kinds that have a name. The kind of an operation is a byte; every byte that is not here is a plain kind, or one that a family of
// another name knows by number.
ghost use Rattle.std.specs.Prelude.{◌≡◌};
ghost use Rattle.ir.specs.Kinds.{kind_number, KindNumbered};

use std::error::Error;
use std::fmt;

// The number of each is its byte.
#[derive(Clone, Copy, PartialEq, Eq)]
pub enum Kind {
    Yield = 1,
    Br = 2,
    CondBr = 3,
    If = 4,
    Loop = 5,
    Switch = 6,
}

// A byte that is the number of no kind with a name.
#[derive(Clone, Copy, Debug, PartialEq, Eq)]
pub struct NoNamedKind(pub u8);

impl From<Kind> for u8 {
    ghost from_gives = { λ kind r. r ≡ kind_number kind };

    fn from(kind: Kind) -> u8 {
        kind as u8
    }
}

impl TryFrom<u8> for Kind {
    type Error = NoNamedKind;

    ghost try_from_gives = { KindNumbered };

    fn try_from(number: u8) -> Result<Kind, NoNamedKind> {
        match number {
            1 => Ok(Kind::Yield),
            2 => Ok(Kind::Br),
            3 => Ok(Kind::CondBr),
            4 => Ok(Kind::If),
            5 => Ok(Kind::Loop),
            6 => Ok(Kind::Switch),
            _ => Err(NoNamedKind(number)),
        }
    }
}

// The name, as a course file writes it.
impl fmt::Display for Kind {
    fn fmt<W: fmt::Write>(&self, f: &mut fmt::Formatter<W>) -> fmt::Result {
        f.write_str(match self {
            Kind::Yield => "yield",
            Kind::Br => "br",
            Kind::CondBr => "cond_br",
            Kind::If => "if",
            Kind::Loop => "loop",
            Kind::Switch => "switch",
        })
    }
}

impl fmt::Display for NoNamedKind {
    fn fmt<W: fmt::Write>(&self, f: &mut fmt::Formatter<W>) -> fmt::Result {
        write!(f, "no kind with a name has the number {}", self.0)
    }
}

impl Error for NoNamedKind {}
