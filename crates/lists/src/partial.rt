// The partial list, from sheets in words: the first generated rows, none of them pruned.
ghost use Rattle.std.specs.Prelude.{◌≡◌};
ghost use Rattle.rules.specs.Answers.{after, partial_reply, reply_of};
ghost use Rattle.rules.specs.Calls.{cares, lent, partial, partial_values, room_in, values};

use crate::barring::{BOTH, KEPT, lend_barred};
use crate::formed::form_of;
use building::build_part::build_part;
use method::generate::Generated;
use method::solid::copy_solid;
use rules::{List, PartialAnswer, Refusal, Row};

// The first k generated rows over the first cells of the two runs, their count, and whether generation has no more.
#[tactic(auto, using(crate::proofs::Forms::partial_steps))]
pub fn partial_list(
    n: u32,
    order: &[u32],
    on: &[i32],
    off: &[i32],
    k: usize,
    care: &mut [u32],
    value: &mut [u32],
) -> PartialAnswer
    ensures result_value { partial_reply result ≡ reply_of partial_values (partial n (lent order.now) (lent on.now) (lent off.now) k (room_in care.old value.old)) }
    ensures care_after { care.new ≡ after (λ p. cares p.rows) (partial n (lent order.now) (lent on.now) (lent off.now) k (room_in care.old value.old)) care.old }
    ensures value_after { value.new ≡ after (λ p. values p.rows) (partial n (lent order.now) (lent on.now) (lent off.now) k (room_in care.old value.old)) value.old }
{
    let n = form_of(n, order, on, off)?;
    if List::MAX_ROWS < k {
        return Err(Refusal::Asked);
    }
    let mut both = [Row::dashes(); BOTH];
    let lent = lend_barred(n, order, on, off, &mut both);
    let mut kept = [Row::dashes(); KEPT];
    let Generated { count, complete } = build_part(
        &lent,
        &mut kept,
        k,
        care.len().min(value.len()),
    )?;
    let ons = lent.on_rows().len();
    copy_solid(&kept[ons..ons + count], care, value);
    Ok((count, complete))
}
