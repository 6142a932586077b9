// Generation, a row at a time: the smallest on setting that lies in no row so far is sought from the last one on, widened, and its
// row kept behind the others.
ghost use Rattle.std.specs.Prelude.{◌≡◌, true, [], ◌++◌, ◌+◌, ◌≤◌, length, take};
ghost use Rattle.rules.specs.Words.{is_order, dashes};
ghost use Rattle.rules.specs.Search.{smallest, not_below};
ghost use Rattle.rules.specs.Method.{generated, complete};
ghost use Rattle.rules.specs.Answers.{over};
ghost use Rattle.sheets.specs.Numbers.{numbers_of};
ghost use Rattle.search.specs.Question.{found_as, Asked};
ghost use Rattle.search.specs.Good.{good_of};
ghost use Rattle.method.specs.Lent.{asks};

use crate::widen::widen;
use rules::{Row, Setting};
use search::{Question, find_from};

// The count of rows, and whether generation has no more.
#[derive(Clone, Copy)]
pub struct Generated {
    pub count: usize,
    pub complete: bool,
}

// The smallest setting of the sheet, not below the last, that lies in none of the rows. These change between questions, so each is made
// anew, and what it needs is asked here.
#[tactic(auto, unfolding(rules::specs::Calls::words_of))]
fn next_from(
    order: &[u32],
    swift: &[u32],
    on: &[u8],
    rows: &[Row],
    last: Setting,
) -> Option<Setting>
    requires swift_value { is_order (length order.now) swift.now ≡ true }
    requires asked { Asked order.now (numbers_of on.now) [] rows.now }
    ensures { found_as result ≡ smallest (not_below order.now last.0 (asks on.now rows.now)) order.now dashes }
{
    let q = Question {
        order,
        swift,
        a: on,
        b: &[],
        rows,
    };
    find_from(&q, last)
}

// Keeps the first k generated rows behind the rows that the on sheet's other clauses bar.
pub fn generate(
    off: &Question,
    swift: &[u32],
    on: &[u8],
    kept: &mut [Row],
    ons: usize,
    k: usize,
) -> Generated
    requires swift_value { is_order (length off.now.order.now) swift.now ≡ true }
    requires asked { Asked off.now.order.now (numbers_of on.now) [] (take ons kept.old) }
    requires k_in_bounds { ons + k ≤ length kept.old }
    ensures kept_after { kept.new ≡ over (take ons kept.old ++ generated off.now.order.now (asks on.now (take ons kept.old)) (good_of off.now) k) kept.old }
    ensures count_value { result.count ≡ length (generated off.now.order.now (asks on.now (take ons kept.old)) (good_of off.now) k) }
    ensures complete_value { result.complete ≡ complete off.now.order.now (asks on.now (take ons kept.old)) (generated off.now.order.now (asks on.now (take ons kept.old)) (good_of off.now) k) }
{
    let mut last = Setting(0);
    for count in 0..k {
        let Some(s) = next_from(off.order, swift, on, &kept[..ons + count], last) else {
            return Generated {
                count,
                complete: true,
            };
        };
        let row = widen(off, s);
        kept[ons + count] = row;
        last = s;
    }
    let complete = next_from(off.order, swift, on, &kept[..ons + k], last).is_none();
    Generated { count: k, complete }
}
