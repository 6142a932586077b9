// DIMACS CNF texts: a token at a time, and the sheet of a whole text.
#![tactic(auto)]

mod body;
mod decimal;
mod header;
mod reader;
mod scan;
mod token;

pub use reader::read;
pub use token::{Step, Token, next_token};
