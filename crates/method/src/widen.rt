// Widening: from the row of all n literals of a setting, each literal goes, first place to last, if the row without it holds no off
// setting. The whole widened row is searched, not the neighbouring setting.
ghost use Rattle.std.specs.Prelude.{◌≡◌, cond, ◌≤◌};
ghost use Rattle.rules.specs.Words.{max_inputs, without};
ghost use Rattle.rules.specs.Search.{holds_some};
ghost use Rattle.rules.specs.Method.{widen};
ghost use Rattle.search.specs.Good.{good_of};

use rules::{Inputs, Row, Setting, Var};
use search::{Question, find};

// The row without the literal of v, if that holds no off setting; else the row.
fn without_if_free(off: &Question, row: Row, v: Var) -> Row
    requires { (1 ≤ v.0) × (v.0 ≤ max_inputs) }
    ensures { result ≡ cond (holds_some (good_of off.now) off.now.swift.now (without v.0 row)) row (without v.0 row) }
{
    let wider = row.without(v);
    if find(off, wider).is_some() {
        row
    } else {
        wider
    }
}

// The row that the setting widens to. The question is asked in the given order, from a row with literals on.
#[tactic(auto, using(search::proofs::Known::order_variable))]
pub fn widen(off: &Question, s: Setting) -> Row
    ensures { result ≡ widen off.now.order.now (good_of off.now) s.0 }
{
    let given = Question {
        order: off.order,
        swift: off.order,
        a: off.a,
        b: off.b,
        rows: off.rows,
    };
    let inputs = Inputs {
        count: off.order.len() as u32,
    };
    let mut row = Row::full(inputs, s);
    for v in off.order {
        row = without_if_free(&given, row, Var(*v));
    }
    row
}
