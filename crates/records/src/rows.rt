// Pruning of rows where they stand, in the order 1..n.
ghost use Rattle.std.specs.Prelude.{true, ◌≡◌};
ghost use Rattle.rules.specs.Words.{natural};
ghost use Rattle.rules.specs.Method.{all, marks};
ghost use Rattle.rules.specs.Calls.{are_rows, kept};
ghost use Rattle.method.specs.Blank.{blanked};

use method::prune::prune;
use rules::{Inputs, Row, natural_order};

// Blanks the rows that go, and gives how many stay. Every setting counts: no sheet is asked.
#[tactic(auto, using(crate::proofs::Judged::whole), unfolding(rules::specs::Calls::words_of))]
pub fn prune_rows(n: Inputs, rows: &mut [Row]) -> usize
    requires { are_rows n.count rows.old ≡ true }
    ensures rows_after { rows.new ≡ blanked (marks all (natural n.count) rows.old) rows.old }
    ensures value { result ≡ kept (marks all (natural n.count) rows.old) }
{
    let mut cells = [0; Row::MAX_INPUTS as usize];
    let order = &mut cells[..n.count as usize];
    natural_order(order);
    let count = rows.len();
    prune(order, &[], rows, 0, count)
}
