// What the row of a new operation is filled with.
ghost use Rattle.std.specs.Prelude.{◌≡◌};

use ir::location::Location;

// What the operation is to be: its operands by their values or by their places, its successors by their blocks, its results by their
// types, its regions by their number.
#[derive(Clone, Copy)]
pub struct NewOperation<'a, V> {
    // a byte and not `Kind`: families are open, and any byte is a kind of some family
    pub kind: u8,
    pub location: Location,
    pub result_types: &'a [usize],
    pub operands: &'a [V],
    pub successors: &'a [usize],
    pub num_regions: usize,
}

impl<'a, V> NewOperation<'a, V> {
    // the same with other operands
    pub fn with_operands<W>(self, operands: &'a [W]) -> NewOperation<'a, W>
        ensures { result ≡ record { kind = self.entry.kind; location = self.entry.location; result_types = self.entry.result_types; operands = operands.entry; successors = self.entry.successors; num_regions = self.entry.num_regions } }
    {
        NewOperation {
            kind: self.kind,
            location: self.location,
            result_types: self.result_types,
            operands,
            successors: self.successors,
            num_regions: self.num_regions,
        }
    }
}

// Where its numbers begin: those of its results, of its uses of blocks, and the rows of its regions.
#[derive(Clone, Copy)]
pub struct FirstNumbers {
    pub value: u32,
    pub block_use: u32,
    pub region: usize,
}
