// What both lists begin with: refusal 6, and then generation, each by questions in a swift order.
ghost use Rattle.std.specs.Prelude.{◌≡◌, true, ◌+◌, ◌≤◌, IfErr, IfOk, length};
ghost use Rattle.rules.specs.Answers.{over};
ghost use Rattle.rules.specs.Words.{is_order};
ghost use Rattle.rules.specs.Method.{max_rows};
ghost use Rattle.search.specs.Question.{found_as};
ghost use Rattle.building.specs.Built.{Collides, Made, collision_of, generated_in, on_rows};

use crate::lent::Lent;
use method::generate::{Generated, generate};
use rules::{Refusal, Row, Setting};
use search::{Question, find_first};
use swift::swift_order;

// The smallest setting that both sheets ask for: one question over the rows of both.
#[tactic(auto, using(crate::proofs::Asking::collision_is))]
fn collision(lent: &Lent, swift: &[u32]) -> Option<Setting>
    requires { is_order (length lent.now.order.now) swift.now ≡ true }
    ensures { found_as result ≡ collision_of lent.now }
{
    find_first(&Question {
        order: lent.order,
        swift,
        a: lent.on,
        b: lent.off,
        rows: lent.both,
    })
}

// Writes the rows over the first of the run. By index: the library's copy would be a call of C's memmove.
fn copy_rows(rows: &[Row], kept: &mut [Row])
    requires { length rows.now ≤ length kept.old }
    ensures { kept.new ≡ over rows.now kept.old }
{
    for (k, row) in rows.iter().enumerate() {
        kept[k] = *row;
    }
}

// The first k generated rows of what is lent, and whether generation has no more; or the collision. The rows are kept behind those that
// on's other clauses bar. Their room is asked in each call: a value that held the run to be written would be made for that call alone.
#[tactic(auto, using(crate::proofs::Making::apart_steps))]
pub fn generate_apart(lent: &Lent, kept: &mut [Row], k: usize) -> Result<Generated, Refusal>
    requires max_rows_in_bounds { length (on_rows lent.now) + max_rows ≤ length kept.old }
    requires k_le_max_rows { k ≤ max_rows }
    ensures made { IfOk result (λ made. Made lent.now k (generated_in lent.now made.count kept.new) made.complete) }
    ensures within { IfOk result (λ made. length (on_rows lent.now) + made.count ≤ length kept.new) }
    ensures collided { IfErr result (λ f. Collides lent.now f) }
{
    let order = lent.order;
    let mut space = [0; Row::MAX_INPUTS as usize];
    let swift = &mut space[..order.len()];
    swift_order(order, lent.both, lent.on, lent.off, swift);
    if let Some(s) = collision(lent, swift) {
        return Err(Refusal::Collision(s));
    }
    let off = Question {
        order,
        swift,
        a: lent.off,
        b: &[],
        rows: lent.off_rows(),
    };
    let on_rows = lent.on_rows();
    let ons = on_rows.len();
    copy_rows(on_rows, kept);
    Ok(generate(&off, swift, lent.on, kept, ons, k))
}
