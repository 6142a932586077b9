// The partial list.
ghost use Rattle.std.specs.Prelude.{◌≡◌};
ghost use Rattle.rules.specs.Answers.{after, reply_of};
ghost use Rattle.rules.specs.Calls.{cares, lent, partial, partial_values, room_in, values};
ghost use Rattle.probe.specs.Packed.{packed_counts};

use crate::pack::partial_reply;
use lists::partial_list;

#[unsafe(no_mangle)]
pub extern "C" fn probe_partial(
    n: u32,
    order: &[u32],
    on: &[i32],
    off: &[i32],
    k: usize,
    care: &mut [u32],
    value: &mut [u32],
) -> u64
    ensures value { result ≡ packed_counts (reply_of partial_values (partial n (lent order.now) (lent on.now) (lent off.now) k (room_in care.old value.old))) }
    ensures care_after { care.new ≡ after (λ p. cares p.rows) (partial n (lent order.now) (lent on.now) (lent off.now) k (room_in care.old value.old)) care.old }
    ensures value_after { value.new ≡ after (λ p. values p.rows) (partial n (lent order.now) (lent on.now) (lent off.now) k (room_in care.old value.old)) value.old }
{
    partial_reply(partial_list(n, order, on, off, k, care, value))
}
