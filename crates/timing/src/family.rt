// The family, and why it does not accept a layout.
ghost use Rattle.std.specs.Prelude.{◌≡◌};
ghost use Rattle.timing.specs.Timing.{layout_code};

use ir::refusal::LayoutCode;

// It knows its kinds by heart and holds nothing.
#[derive(Clone, Copy)]
pub struct Timing;

// Why a layout is not accepted, tested in this order. The number of each is its code.
#[derive(Clone, Copy, PartialEq, Eq)]
pub enum LayoutFault {
    // a wrong number of successors (branches) or regions (region kinds)
    WrongCount = 1,
    // a region without blocks
    NoBlock = 2,
    // operands, sizes, arguments or results that do not fit the kind
    WrongOperands = 3,
    // a yield with a wrong number of operands
    WrongYield = 4,
    // more edges than there may be
    TooManyEdges = 5,
}

impl From<LayoutFault> for LayoutCode {
    ghost from_gives = { λ fault r. r ≡ layout_code fault };

    fn from(fault: LayoutFault) -> LayoutCode {
        LayoutCode(fault as u8)
    }
}
