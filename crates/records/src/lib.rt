// Pruning of a hand-made list: a lent run of cube records, each marked kept or dropped where it stands.
// The records' rows are copied out, pruned as a run of rows, and the marks written back.
#![tactic(auto)]

mod cubes;
mod rows;

pub use cubes::{Cube, Pruned, prune_records, pruned_array};
