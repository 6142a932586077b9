// Pruning: the rows in generated order, each judged against the others not dropped so far; a row that goes is blanked where it stands.
ghost use Rattle.std.specs.Prelude.{◌≡◌, [], ◌++◌, ◌+◌, ◌≤◌, ◌<◌, length, take};
ghost use Rattle.rules.specs.Answers.{over};
ghost use Rattle.rules.specs.Calls.{kept};
ghost use Rattle.sheets.specs.Numbers.{numbers_of};
ghost use Rattle.search.specs.Question.{Asked};
ghost use Rattle.method.specs.Blank.{blanked, judged_at};
ghost use Rattle.method.specs.Lent.{stays, behind, staying};

use crate::solid::BLANK;
use rules::Row;
use search::{Question, find};

// Whether the row at `at` holds a setting that satisfies the sheet and lies in none of the others; if not, it is blanked.
#[tactic(auto, unfolding(rules::specs::Calls::words_of))]
fn judge(order: &[u32], counting: &[u8], rows: &mut [Row], at: usize) -> bool
    requires asked { Asked order.now (numbers_of counting.now) [] rows.old }
    requires at_in_bounds { at < length rows.old }
    ensures value { result ≡ stays order.now (numbers_of counting.now) rows.old at }
    ensures rows_after { rows.new ≡ judged_at result rows.old at }
{
    let row = rows[at];
    rows[at] = BLANK;
    let others = Question {
        order,
        swift: order,
        a: counting,
        b: &[],
        rows,
    };
    let stays = find(&others, row).is_some();
    if stays {
        rows[at] = row;
    }
    stays
}

// Prunes the `count` rows behind the first `ons` rows of the run, first to last, and gives how many stay. What counts is a setting that
// satisfies the sheet and lies in none of the first rows.
pub fn prune(order: &[u32], counting: &[u8], rows: &mut [Row], ons: usize, count: usize) -> usize
    requires asked { Asked order.now (numbers_of counting.now) [] (take (ons + count) rows.old) }
    requires count_in_bounds { ons + count ≤ length rows.old }
    ensures rows_after { rows.new ≡ over (take ons rows.old ++ blanked (staying order.now counting.now ons count rows.old) (behind ons count rows.old)) rows.old }
    ensures value { result ≡ kept (staying order.now counting.now ons count rows.old) }
{
    let rows = &mut rows[..ons + count];
    let mut stay = 0;
    // By index, since each row is judged against all others of the run.
    for at in ons..rows.len() {
        if judge(order, counting, rows, at) {
            stay += 1;
        }
    }
    stay
}
