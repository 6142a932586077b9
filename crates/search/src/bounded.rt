// The search from a start on: a setting not below the start is the start, or follows it up to a place where it has 1 and the start
// has 0. The longer it follows, the smaller it is.
ghost use Rattle.std.specs.Prelude.{◌≡◌, ◌<◌, length};
ghost use Rattle.rules.specs.Words.{dashes};
ghost use Rattle.rules.specs.Search.{smallest, not_below};
ghost use Rattle.sheets.specs.Numbers.{numbers_of};
ghost use Rattle.search.specs.Question.{good, found_as, Asked, Ahead, followed, above_at};
ghost use Rattle.search.specs.Good.{good_of};

use crate::Question;
use crate::lower::first;
use crate::step::var_at;
use rules::{Place, Row, Setting, Var};
use swift::swift_order;

// The row that fixes every variable at the start's value.
#[tactic(auto, using(crate::proofs::Known::order_variable))]
fn follow(q: &Question, start: Setting) -> Row
    ensures { result ≡ followed q.now.order.now start.0 (length q.now.order.now) }
{
    let mut row = Row::dashes();
    for v in q.order {
        let v = Var(*v);
        row = row.fixed_at(v.is_one(start.0), v);
    }
    row
}

// Of a row that fixes the variables before the place alone, the smallest good setting with 1 at the place; none where the start has 1.
#[tactic(auto, using(crate::proofs::Known::order_variable))]
fn above(q: &Question, place: Place, row: Row, start: Setting) -> Option<Setting>
    requires ahead { Ahead q.now.order.now place.0 row }
    requires place_in_bounds { place.0 < length q.now.order.now }
    ensures { found_as result ≡ above_at (good_of q.now) q.now.order.now start.0 place.0 row }
{
    let v = var_at(q.order, place);
    if v.is_one(start.0) {
        return None;
    }
    first(q, Place(place.0 + 1), row.at_one(v))
}

// The smallest good setting that is not below the start: the start, or the one above it that follows it longest.
#[tactic(auto, using(crate::proofs::Known::order_variable))]
pub fn find_from(q: &Question, start: Setting) -> Option<Setting>
    ensures { found_as result ≡ smallest (not_below q.now.order.now start.0 (good_of q.now)) q.now.order.now dashes }
{
    let n = q.order.len();
    let mut row = follow(q, start);
    if let Some(s) = first(q, Place(n), row) {
        return Some(s);
    }
    // By place, since what is known of the row is told by the place up to which it is fixed.
    for at in (0..n).rev() {
        row = row.without(var_at(q.order, Place(at)));
        if let Some(s) = above(q, Place(at), row, start) {
            return Some(s);
        }
    }
    None
}

// The same, in a swift order of its own.
pub fn seek_from(order: &[u32], start: Setting, a: &[u8], b: &[u8], rows: &[Row]) -> Option<Setting>
    requires { Asked order.now (numbers_of a.now) (numbers_of b.now) rows.now }
    ensures { found_as result ≡ smallest (not_below order.now start.0 (good (numbers_of a.now) (numbers_of b.now) rows.now)) order.now dashes }
{
    let mut swift = [0; Row::MAX_INPUTS as usize];
    let swift = &mut swift[..order.len()];
    swift_order(order, rows, a, b, swift);
    let q = Question {
        order,
        swift,
        a,
        b,
        rows,
    };
    find_from(&q, start)
}
