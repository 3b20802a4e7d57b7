// How much a book and its rows may hold. `limits` in specs/Limits.antt has the same numbers for the promises, and every
// check of a limit is proved against it.

// rows of each table of a book
pub const MAX_OPERATIONS: usize = 256;

pub const MAX_BLOCKS: usize = 256;

pub const MAX_REGIONS: usize = 128;

// uses that a book makes in its whole life
pub const MAX_USES: u32 = 1_000_000;

// handles of its type list
pub const MAX_TYPES: usize = 256;

// operands of one operation; then its results, successors, regions and segments
pub const MAX_OPERANDS: usize = 32;

pub const MAX_RESULTS: usize = 8;

pub const MAX_SUCCESSORS: usize = 8;

pub const MAX_OP_REGIONS: usize = 8;

pub const MAX_SEGMENTS: usize = 8;

// a segment size that is handed in; one that stands may grow past it
pub const MAX_SEGMENT_SIZE: u32 = 255;

// arguments of one block
pub const MAX_ARGUMENTS: usize = 16;
