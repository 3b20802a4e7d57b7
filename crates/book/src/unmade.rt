// Why no book was made. Want of memory has no number: only the making can meet it.
ghost use Rattle.std.specs.Prelude.{◌≡◌};
ghost use Rattle.book.specs.declared.unmade.Unmade.TheVariants.{Refused, Memory};

use ir::refusal::Refusal;
use std::alloc::AllocError;
use std::error::Error;
use std::fmt;

#[derive(Clone, Copy, Debug, PartialEq, Eq)]
pub enum Unmade {
    Refused(Refusal),
    Memory,
}

impl From<Refusal> for Unmade {
    ghost from_gives = { λ e r. r ≡ Refused e };

    fn from(e: Refusal) -> Unmade {
        Unmade::Refused(e)
    }
}

impl From<AllocError> for Unmade {
    ghost from_gives = { λ _ r. r ≡ Memory };

    fn from(_e: AllocError) -> Unmade {
        Unmade::Memory
    }
}

impl fmt::Display for Unmade {
    fn fmt<W: fmt::Write>(&self, f: &mut fmt::Formatter<W>) -> fmt::Result {
        match self {
            Unmade::Refused(e) => write!(f, "{e}"),
            Unmade::Memory => f.write_str("no memory for a book"),
        }
    }
}

impl Error for Unmade {}
