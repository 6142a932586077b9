// The one search: the smallest setting of a row, or the smallest not below a start, that satisfies two sheets and lies in none of
// the kept rows.
#![tactic(auto)]

mod bounded;
mod calls;
mod cut;
mod lower;
mod question;
mod smallest;
mod step;

// What is asked.
pub use question::Question;

// In a row; from a start on, and from the first setting on.
pub use bounded::find_from;
pub use lower::find_first;
pub use smallest::find;

// The variable at a place.
pub use step::var_at;

// The call.
pub use calls::query;
