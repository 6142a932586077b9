// The whole list of what is lent, one method for both ways of lending a sheet: in place, or as the rows that its clauses bar.
ghost use Rattle.std.specs.Prelude.{◌≡◌, ◌+◌, ◌≤◌, IfOk, length};
ghost use Rattle.rules.specs.Method.{max_rows};
ghost use Rattle.method.specs.Blank.{solid};
ghost use Rattle.building.specs.Built.{built_as, generated_in, on_rows, whole_of};

use crate::apart::generate_apart;
use crate::lent::Lent;
use method::generate::Generated;
use method::prune::prune;
use rules::{List, Refusal, Row};

// How many rows stay, and how many were generated: those that went are blanks.
#[derive(Clone, Copy)]
pub struct Built {
    pub count: usize,
    pub generated: usize,
}

// The list's rows, which stand in the run behind those that on's other clauses bar, or the refusal.
#[tactic(auto, using(crate::proofs::Making::build_steps), unfolding(rules::specs::Calls::whole_for, rules::specs::Answers::judge))]
pub fn build(lent: &Lent, kept: &mut [Row], room: usize) -> Result<Built, Refusal>
    requires { length (on_rows lent.now) + max_rows ≤ length kept.old }
    ensures verdict { built_as lent.now result kept.new ≡ whole_of lent.now room }
    ensures within { IfOk result (λ built. length (on_rows lent.now) + built.generated ≤ length kept.new) }
    ensures count { IfOk result (λ built. built.count ≡ length (solid (generated_in lent.now built.generated kept.new))) }
    ensures fits { IfOk result (λ built. built.count ≤ room) }
{
    let Generated {
        count: generated,
        complete,
    } = generate_apart(lent, kept, List::MAX_ROWS)?;
    if !complete {
        return Err(Refusal::TooManyRows);
    }
    let ons = lent.on_rows().len();
    let count = prune(
        lent.order,
        &[],
        &mut kept[ons..ons + generated],
        0,
        generated,
    );
    if room < count {
        return Err(Refusal::Room);
    }
    Ok(Built { count, generated })
}
