// The list of what is lent, whole or its first generated rows: a sheet is lent in place, or as the rows that its clauses bar.
#![tactic(auto)]

mod apart;
pub mod build;
pub mod build_part;
pub mod lent;
