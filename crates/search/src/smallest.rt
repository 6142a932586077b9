// The search: a row that is not live is left; else, place by place of the swift order, a variable that the row fixes is passed, and
// the first other is tried at 0 and then at 1. Passing takes no stack.
ghost use Rattle.std.specs.Prelude.{◌≡◌, ◌≤◌, length, drop};
ghost use Rattle.rules.specs.Search.{smallest};
ghost use Rattle.search.specs.Question.{found_as, Passed};
ghost use Rattle.search.specs.Good.{good_of};

use crate::Question;
use crate::cut::live;
use crate::step::{next_free, var_at};
use rules::{Place, Row, Setting};

// The smallest good setting of a row that fixes every variable before the place.
#[tactic(auto, using(crate::proofs::Known::swift_variable))]
pub fn search(q: &Question, place: Place, row: Row) -> Option<Setting>
    requires place_in_bounds { place.0 ≤ length q.now.swift.now }
    requires passed { Passed q.now.swift.now place.0 row }
    ensures { found_as result ≡ smallest (good_of q.now) (drop place.0 q.now.swift.now) row }
{
    if !live(q, row) {
        return None;
    }
    let here = next_free(q, place, row.care);
    if here.0 >= q.swift.len() {
        return Some(Setting(row.value));
    }
    let v = var_at(q.swift, here);
    let next = Place(here.0 + 1);
    let low = row.at_zero(v);
    let high = row.at_one(v);
    if let Some(s) = search(q, next, low) {
        return Some(s);
    }
    search(q, next, high)
}

// The smallest good setting of the row, by the swift order.
pub fn find(q: &Question, row: Row) -> Option<Setting>
    ensures { found_as result ≡ smallest (good_of q.now) q.now.swift.now row }
{
    search(q, Place(0), row)
}
