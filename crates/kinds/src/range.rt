// The operands from start up to end, without end. A struct of its own, so that the laws of a family
// can name its record.
#[derive(Clone, Copy)]
pub struct IndexRange {
    pub start: usize,
    pub end: usize,
}
