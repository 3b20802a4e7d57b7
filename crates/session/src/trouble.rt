// Why a line was not carried out.
ghost use Rattle.std.specs.Prelude.{◌≡◌};
ghost use Rattle.session.specs.declared.trouble.Trouble.TheVariants.{Memory, Refused};
ghost use Rattle.session.specs.Unmade.{unmade_trouble};

use book::unmade::Unmade;
use ir::kind::Kind;
use ir::refusal::Refusal;
use std::alloc::{AllocError, AllocFailed as NoPlace};
use std::fmt;
use text::indexed::Indexed;
use text::names::Name;

#[derive(Clone, Copy)]
pub enum Trouble {
    // nothing was made under this name
    UnknownName(Name),
    // something was made under this name already
    NameTaken(Name),
    // the name stands for an operation where a block is wanted, or the other way round
    NotABlock(Name),
    NotAnOperation(Name),
    // there is no such result, argument or region
    NoSuchPart(Indexed),
    // no checks stand for this kind yet
    KindNotChecked(Kind),
    // `types` comes first, and once
    TypesMissing,
    TypesAgain,
    // the book refused the call
    Refused(Refusal),
    Memory,
}

impl From<AllocError> for Trouble {
    ghost from_gives = { λ _ r. r ≡ Memory };

    fn from(_e: AllocError) -> Trouble {
        Trouble::Memory
    }
}

impl<T: Drop> From<NoPlace<T>> for Trouble {
    ghost from_gives = { λ _ r. r ≡ Memory };

    fn from(_e: NoPlace<T>) -> Trouble {
        Trouble::Memory
    }
}

impl From<Refusal> for Trouble {
    ghost from_gives = { λ e r. r ≡ Refused e };

    fn from(e: Refusal) -> Trouble {
        Trouble::Refused(e)
    }
}

impl From<Unmade> for Trouble {
    ghost from_gives = { λ e r. r ≡ unmade_trouble e };

    fn from(e: Unmade) -> Trouble {
        match e {
            Unmade::Refused(refusal) => Trouble::Refused(refusal),
            Unmade::Memory => Trouble::Memory,
        }
    }
}

impl fmt::Display for Trouble {
    fn fmt<W: fmt::Write>(&self, f: &mut fmt::Formatter<W>) -> fmt::Result {
        match self {
            Trouble::UnknownName(name) => write!(f, "nothing was made under the name {name}"),
            Trouble::NameTaken(name) => write!(f, "the name {name} is taken"),
            Trouble::NotABlock(name) => write!(f, "expected a block, found the operation {name}"),
            Trouble::NotAnOperation(name) => write!(
                f,
                "expected an operation, found the block {name}"
            ),
            Trouble::NoSuchPart(part) => write!(f, "there is no {part}"),
            Trouble::KindNotChecked(kind) => write!(f, "kind not checked yet: {kind}"),
            Trouble::TypesMissing => f.write_str("expected types as the first statement"),
            Trouble::TypesAgain => f.write_str("types are given once, as the first statement"),
            Trouble::Refused(refusal) => write!(f, "refused, {}: {refusal}", refusal.number()),
            Trouble::Memory => f.write_str("out of memory"),
        }
    }
}
