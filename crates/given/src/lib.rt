// A given list, in two runs of words, is looked at before it is used: refusal 8 is given unless its first `count` rows are
// there, are at most 256, and are rows of n inputs. A list in form is a value of its own.
#![tactic(auto)]

mod list;
mod rows;

ghost use Rattle.std.specs.Prelude.{◌≡◌, IfErr, IfOk, is_ok, take};
ghost use Rattle.rules.specs.Calls.{rows_in, are_rows};
ghost use Rattle.given.specs.Given.{in_form, rows_of, rows_left};

pub use list::Given;
pub use rows::Rows;
use rules::{Inputs, List, Refusal};

// The first `count` rows of the two runs, or refusal 8.
#[tactic(auto, using(crate::proofs::Runs::runs))]
pub fn given_list<'a>(
    n: Inputs,
    count: usize,
    care: &'a [u32],
    value: &'a [u32],
) -> Result<Given<'a>, Refusal>
    ensures inputs { IfOk result (λ list. list.inputs.count ≡ n.count) }
    ensures rows { IfOk result (λ list. rows_of list ≡ take count (rows_in care.now value.now)) }
    ensures refused { IfErr result (λ f. f ≡ Refusal.GivenList) }
    ensures when { is_ok result ≡ in_form n.count count (rows_in care.now value.now) }
{
    let care = care.get(..count).ok_or(Refusal::GivenList)?;
    let value = value.get(..count).ok_or(Refusal::GivenList)?;
    if count > List::MAX_ROWS || !are_rows(n, Rows { care, value }) {
        return Err(Refusal::GivenList);
    }
    Ok(Given {
        inputs: n,
        care,
        value,
    })
}

// All of them are rows of n inputs.
fn are_rows(n: Inputs, mut rows: Rows) -> bool
    ensures { result ≡ are_rows n.count (rows_left rows.entry) }
{
    rows.all(|row| row.is_row(n))
}
