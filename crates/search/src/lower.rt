// The smallest good setting by questions in the swift order: whether there is one does not hang on the order in which it is sought.
ghost use Rattle.std.specs.Prelude.{◌≡◌, ◌<◌, length, drop};
ghost use Rattle.std.proofs.Math.Option.{some};
ghost use Rattle.rules.specs.Words.{dashes};
ghost use Rattle.rules.specs.Search.{smallest};
ghost use Rattle.search.specs.Question.{found_as, Ahead, Met, Lowers};
ghost use Rattle.search.specs.Good.{good_of};

use crate::Question;
use crate::smallest::find;
use crate::step::var_at;
use rules::{Place, Row, Setting};

// A row that fixes the variables passed, and a good setting that it holds. What is known of them hangs on the question and the place too,
// so a type that kept it would be built anew at each step.
#[derive(Clone, Copy)]
pub struct Held {
    pub row: Row,
    pub met: Setting,
}

// The variable at the place fixed too: at 0 where the setting met has 0, or where another good one has; else at 1.
#[tactic(auto, using(crate::proofs::Known::order_variable))]
fn lower_at(q: &Question, place: Place, held: Held) -> Held
    requires ahead { Ahead q.now.order.now place.0 held.row }
    requires met { Met (good_of q.now) (length q.now.order.now) held.row held.met.0 }
    requires place_in_bounds { place.0 < length q.now.order.now }
    ensures { Lowers (good_of q.now) q.now.order.now place.0 held.row result.row result.met.0 }
{
    let Held { row, met } = held;
    let v = var_at(q.order, place);
    let low = row.at_zero(v);
    if !v.is_one(met.0) {
        return Held { row: low, met };
    }
    match find(q, low) {
        Some(met) => Held { row: low, met },
        None => Held {
            row: row.at_one(v),
            met,
        },
    }
}

// The smallest good setting of a row that holds the good setting met.
pub fn lower(q: &Question, place: Place, mut held: Held) -> Setting
    requires ahead { Ahead q.now.order.now place.0 held.row }
    requires met { Met (good_of q.now) (length q.now.order.now) held.row held.met.0 }
    ensures { some result.0 ≡ smallest (good_of q.now) (drop place.0 q.now.order.now) held.row }
{
    // By place, since what is known of the row is told by the place up to which it is fixed.
    for at in place.0..q.order.len() {
        held = lower_at(q, Place(at), held);
    }
    held.met
}

// The smallest good setting of a row that fixes the variables before the place alone.
pub fn first(q: &Question, place: Place, row: Row) -> Option<Setting>
    requires { Ahead q.now.order.now place.0 row }
    ensures { found_as result ≡ smallest (good_of q.now) (drop place.0 q.now.order.now) row }
{
    let met = find(q, row)?;
    Some(lower(q, place, Held { row, met }))
}

// The smallest good setting.
pub fn find_first(q: &Question) -> Option<Setting>
    ensures { found_as result ≡ smallest (good_of q.now) q.now.order.now dashes }
{
    first(q, Place(0), Row::dashes())
}
