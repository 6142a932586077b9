// The calls as a program in another language can make them, to compare and to measure. A reply comes back in one number.
#![tactic(auto)]

mod cubes;
mod given_lists;
mod pack;
mod partial;
mod phase;
mod query;
mod texts;
mod whole;
