// A given list that is in form.
ghost use Rattle.std.specs.Prelude.{true, ◌≡◌, ◌≤◌, length};
ghost use Rattle.rules.specs.Method.{max_rows};
ghost use Rattle.rules.specs.Calls.{rows_in, are_rows};

use crate::rows::Rows;
use rules::Inputs;

// Its rows stand in two runs of words, as the calls are lent them, and all of them are rows of the inputs.
#[derive(Clone, Copy)]
pub struct Given<'a> {
    pub inputs: Inputs,
    pub care: &'a [u32],
    pub value: &'a [u32],
    pub ghost paired: { length care.now ≡ length value.now },
    pub ghost few: { length care.now ≤ max_rows },
    pub ghost formed: { are_rows inputs.count (rows_in care.now value.now) ≡ true },
}

impl<'a> Given<'a> {
    ghost use Rattle.given.specs.Given.{rows_of, rows_left};

    // How many rows it has.
    #[tactic(auto, using(crate::proofs::Runs::runs))]
    pub fn count(self) -> usize
        ensures rows { result ≡ length (rows_of self.entry) }
        ensures few { result ≤ max_rows }
    {
        self.care.len()
    }

    // Its rows, first to last.
    pub fn rows(self) -> Rows<'a>
        ensures { rows_left result ≡ rows_of self.entry }
    {
        Rows {
            care: self.care,
            value: self.value,
        }
    }
}
