// Why a call is refused. Each case has a number, which stands above it here and which `number` answers; where several
// would apply, the lowest is given, but for the places where a call says otherwise.
ghost use Rattle.std.specs.Prelude.{◌≡◌};
ghost use Rattle.ir.specs.Numbers.{number_of};

use std::error::Error;
use std::fmt;

#[derive(Clone, Copy, Debug, PartialEq, Eq)]
pub enum Refusal {
    // 1: no such row or type
    NoRow,
    // 2: no such value, or no row that defines it; the value's number
    NoValue(u32),
    // 3: what is handed in exceeds a capacity of one operation, block, type list, size or chart table
    OverCapacity,
    // 4: a range whose last index is not negative and lies below the first
    RangeBackward,
    // 5: chart rows outside their rule
    ChartRule,
    // 6: the kind lacks the interface
    NoInterface,
    // 7: too few rows left for the operation, the block or the regions
    NoRowsLeft,
    // 8: no segment sizes are set
    NoSizes,
    // 9: the layout is not accepted; the family's code
    Layout(LayoutCode),
    // 10: index out of range, also inside a segment
    OutOfRange,
    // 11: nothing to pop
    NothingToPop,
    // 12: a segment's place to insert at lies past the operands, or an operand of it to be read or removed is missing
    PastOperands,
    // 13: the operation has all the operands that it may have
    OperandsFull,
    // 14: already placed
    AlreadyPlaced,
    // 15: more uses would be made than a book may make
    UsesSpent,
    // 16: the caller's list is shorter than the answer
    ListTooShort,
}

// The number of a reason that a family of kinds has for not accepting a layout. Each family has reasons of its own, and a book tells
// them by a byte.
#[derive(Clone, Copy, Debug, PartialEq, Eq)]
pub struct LayoutCode(pub u8);

impl fmt::Display for LayoutCode {
    fn fmt<W: fmt::Write>(&self, f: &mut fmt::Formatter<W>) -> fmt::Result {
        write!(f, "{}", self.0)
    }
}

impl Refusal {
    // a method and no conversion, since a refusal may carry a value that its number does not tell
    pub fn number(self) -> u8
        ensures { result ≡ number_of self }
    {
        match self {
            Refusal::NoRow => 1,
            Refusal::NoValue(_) => 2,
            Refusal::OverCapacity => 3,
            Refusal::RangeBackward => 4,
            Refusal::ChartRule => 5,
            Refusal::NoInterface => 6,
            Refusal::NoRowsLeft => 7,
            Refusal::NoSizes => 8,
            Refusal::Layout(_) => 9,
            Refusal::OutOfRange => 10,
            Refusal::NothingToPop => 11,
            Refusal::PastOperands => 12,
            Refusal::OperandsFull => 13,
            Refusal::AlreadyPlaced => 14,
            Refusal::UsesSpent => 15,
            Refusal::ListTooShort => 16,
        }
    }
}

// What the refusal means, for whoever reads what a program prints.
impl fmt::Display for Refusal {
    fn fmt<W: fmt::Write>(&self, f: &mut fmt::Formatter<W>) -> fmt::Result {
        f.write_str(match self {
            Refusal::NoRow => "no such row or type",
            Refusal::NoValue(_) => "no such value, or no row that defines it",
            Refusal::OverCapacity =>
                "more is handed in than one operation, block, type list, size or chart table may have",
            Refusal::RangeBackward => "a range whose last index lies below its first",
            Refusal::ChartRule => "chart rows outside their rule",
            Refusal::NoInterface => "the kind lacks the interface",
            Refusal::NoRowsLeft => "too few rows left",
            Refusal::NoSizes => "no segment sizes are set",
            Refusal::Layout(_) => "the layout is not accepted",
            Refusal::OutOfRange => "index out of range",
            Refusal::NothingToPop => "nothing to pop",
            Refusal::PastOperands => "the segment lies past the operands",
            Refusal::OperandsFull => "the operation has all the operands that it may have",
            Refusal::AlreadyPlaced => "already placed",
            Refusal::UsesSpent => "the book has made all the uses that it may make",
            Refusal::ListTooShort => "the list is shorter than the answer",
        })
    }
}

impl Error for Refusal {}
