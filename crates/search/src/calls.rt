// The call that asks for the smallest setting that satisfies a sheet and is not below a start.
ghost use Rattle.std.specs.Prelude.{◌≡◌, true};
ghost use Rattle.rules.specs.Words.{is_order, dashes};
ghost use Rattle.rules.specs.Sheets.{well_formed, satisfies};
ghost use Rattle.rules.specs.Search.{smallest, not_below};
ghost use Rattle.rules.specs.Answers.{query_reply, reply_of};
ghost use Rattle.rules.specs.Calls.{lent, listed, query};
ghost use Rattle.search.specs.Question.{found_as};

use crate::bounded::seek_from;
use rules::{Inputs, QueryAnswer, Refusal, Row, Setting, Sheet};
use sheets::{bar, is_order, well_formed};

// The smallest setting that satisfies the sheet and is not below the start: it lies in none of the barred rows.
fn satisfied_from(n: Inputs, order: &[u32], sheet: &[i32], start: Setting) -> Option<Setting>
    requires order_value { is_order n.count order.now ≡ true }
    requires sheet_value { well_formed n.count sheet.now ≡ true }
    ensures { found_as result ≡ smallest (not_below order.now start.0 (satisfies sheet.now)) order.now dashes }
{
    let mut rows = [Row::dashes(); Sheet::MAX_CLAUSES];
    let count = bar(n, sheet, &mut rows);
    seek_from(order, start, &[], &[], &rows[..count])
}

// The query: refusals 1, 2, 3 and 9 in this order, else the setting.
#[tactic(auto, unfolding(rules::specs::Calls::query, rules::specs::Answers::judge))]
pub fn query(n: u32, order: &[u32], sheet: &[i32], start: Setting) -> QueryAnswer
    ensures { query_reply result ≡ reply_of listed (query n (lent order.now) (lent sheet.now) start.0) }
{
    let inputs = Inputs::of(n)?;
    if !is_order(n, order) {
        return Err(Refusal::Order);
    }
    if !well_formed(n, sheet) {
        return Err(Refusal::OnSheet);
    }
    if !start.fits(inputs) {
        return Err(Refusal::GivenSetting);
    }
    Ok(satisfied_from(inputs, order, sheet, start))
}
