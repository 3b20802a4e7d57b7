// Families of kinds, beyond terminators and branches: operands in segments, and edges between regions, as functions of the page of an
// operation. Start with interfaces.rt; specs/Family.antt and specs/Edges.antt have what a family means and the duties that it shows.
#![tactic(auto)]

pub mod edge;
pub mod interfaces;
pub mod limits;
