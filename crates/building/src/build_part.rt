// The first generated rows of what is lent, none of them pruned.
ghost use Rattle.std.specs.Prelude.{◌≡◌, ◌+◌, ◌≤◌, IfOk, length};
ghost use Rattle.rules.specs.Method.{max_rows};
ghost use Rattle.method.specs.Blank.{solid};
ghost use Rattle.building.specs.Built.{generated_in, on_rows, part_as, part_of};

use crate::apart::generate_apart;
use crate::lent::Lent;
use method::generate::Generated;
use rules::{Refusal, Row};

// The first k generated rows, which stand in the run behind those that on's other clauses bar, or the refusal.
#[tactic(auto, using(crate::proofs::Making::rows_solid), unfolding(rules::specs::Calls::partial_for, rules::specs::Answers::judge))]
pub fn build_part(
    lent: &Lent,
    kept: &mut [Row],
    k: usize,
    room: usize,
) -> Result<Generated, Refusal>
    requires max_rows_in_bounds { length (on_rows lent.now) + max_rows ≤ length kept.old }
    requires k_le_max_rows { k ≤ max_rows }
    ensures verdict { part_as lent.now result kept.new ≡ part_of lent.now k room }
    ensures within { IfOk result (λ part. length (on_rows lent.now) + part.count ≤ length kept.new) }
    ensures solid_value { IfOk result (λ part. solid (generated_in lent.now part.count kept.new) ≡ generated_in lent.now part.count kept.new) }
    ensures fits { IfOk result (λ part. part.count ≤ room) }
{
    let Generated { count, complete } = generate_apart(lent, kept, k)?;
    if room < count {
        return Err(Refusal::Room);
    }
    Ok(Generated { count, complete })
}
