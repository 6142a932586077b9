// When a partial setting, the row of what is fixed so far, may be left.
ghost use Rattle.std.specs.Prelude.{◌≡◌};
ghost use Rattle.search.specs.Question.{covers_some};
ghost use Rattle.search.specs.Good.{live_of};

use crate::Question;
use rules::Row;
use sheets::open_sheet;

// Some kept row holds every setting of the row. All are looked at: a loop without an early end is compiled to look at several at once.
#[tactic(auto, unfolding(crate::specs::Question::covers_some))]
pub fn inside(rows: &[Row], row: Row) -> bool
    ensures { result ≡ covers_some row rows.now }
{
    let mut met = false;
    for kept in rows {
        met |= (kept.care & row.care == kept.care) & (row.value & kept.care == kept.value);
    }
    met
}

// No clause of either sheet is lost under the row, and no kept row holds all of it.
#[tactic(auto, using(crate::proofs::Known::a_in_reach, crate::proofs::Known::b_in_reach), unfolding(crate::specs::Question::live))]
pub fn live(q: &Question, row: Row) -> bool
    ensures { result ≡ live_of q.now row }
{
    open_sheet(q.a, row) && open_sheet(q.b, row) && !inside(q.rows, row)
}
