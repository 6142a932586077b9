// One step down an order: the variable at a place, and the next place whose variable is free.
ghost use Rattle.std.specs.Prelude.{◌≡◌, ◌≤◌, ◌<◌, length, get_or};
ghost use Rattle.search.specs.Question.{Skips};

use crate::Question;
use rules::{Place, Var};

// The variable that stands at the place.
pub fn var_at(order: &[u32], p: Place) -> Var
    requires { p.0 < length order.now }
    ensures { result.0 ≡ get_or order.now p.0 0 }
{
    Var(order[p.0])
}

// The first place of the swift order, from this one on, whose variable is not in the care word; past the last if there is none.
#[tactic(auto, using(crate::proofs::Known::swift_variable))]
pub fn next_free(q: &Question, place: Place, care: u32) -> Place
    requires { place.0 ≤ length q.now.swift.now }
    ensures { Skips q.now.swift.now place.0 care result.0 }
{
    // By place, since the place is the answer.
    for at in place.0..q.swift.len() {
        if !var_at(q.swift, Place(at)).is_one(care) {
            return Place(at);
        }
    }
    Place(q.swift.len())
}
