// Sheets read where they are lent, in words or in bytes.
#![tactic(auto)]

mod barred;
mod form;
mod literal;
mod numbers;
mod open;
mod order;

// A literal's variable and sign, and whether it is true at a setting.
pub use literal::{is_true, positive, variable};

// The k-th word of lent bytes.
pub use numbers::word_at;

// Well-formedness, of words and of bytes.
pub use form::{well_formed, well_formed_bytes};

// Orders.
pub use order::is_order;

// A sheet against a partial setting.
pub use open::open_sheet;

// The rows that a sheet bars.
pub use barred::bar;
