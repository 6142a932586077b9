// The method's steps over the one search: widening, generation and pruning, with the rows in a run that is lent. Pruning leaves blanks
// where rows went, and the others are handed over.
#![tactic(auto)]

pub mod cells;
pub mod generate;
pub mod prune;
pub mod solid;
mod widen;
