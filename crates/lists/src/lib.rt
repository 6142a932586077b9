// The calls that give a list, whole or in part, of sheets in words.
#![tactic(auto)]

pub use partial::partial_list;
pub use whole::whole_list;

mod barring;
mod formed;
mod partial;
mod whole;
