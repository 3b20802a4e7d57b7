// How many region edges an operation may have, and how much one edge may name. `edge_limits` in specs/EdgeLimits.antt has the same
// numbers.

// edges of one operation
pub const MAX_EDGES: usize = 64;

// flows of one edge
pub const MAX_FLOWS: usize = 32;

// reads of one edge
pub const MAX_READS: usize = 64;
