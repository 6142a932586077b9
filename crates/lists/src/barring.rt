// The rows that the clauses of two sheets bar are lent to list building, off's and then on's.
ghost use Rattle.std.specs.Prelude.{◌≡◌, true, ◌*◌, ◌≤◌, length};
ghost use Rattle.rules.specs.Words.{is_order};
ghost use Rattle.rules.specs.Sheets.{max_clauses, well_formed};
ghost use Rattle.lists.specs.Formed.{InForm};
ghost use Rattle.lists.specs.Lends.{Lends};

use building::lent::Lent;
use rules::{Inputs, List, Row, Sheet};
use sheets::bar;

// Room for the barred rows of both sheets, and for those of one and the generated ones.
pub const BOTH: usize = 2 * Sheet::MAX_CLAUSES;

pub const KEPT: usize = Sheet::MAX_CLAUSES + List::MAX_ROWS;

// Writes the barred rows over the first of the run, and lends them in place of the sheets.
#[tactic(auto, using(crate::proofs::Lending::lending_steps))]
pub fn lend_barred<'a>(
    n: Inputs,
    order: &'a [u32],
    on: &[i32],
    off: &[i32],
    rows: &'a mut [Row],
) -> Lent<'a>
    requires in_form { InForm n.count order.now on.now off.now }
    requires max_clauses_in_bounds { 2 * max_clauses ≤ length rows.old }
    ensures { Lends order.now on.now off.now result }
{
    let offs = bar(n, off, rows);
    let ons = bar(n, on, &mut rows[offs..]);
    Lent {
        order,
        on: &[],
        off: &[],
        both: &rows[..offs + ons],
        offs,
    }
}
