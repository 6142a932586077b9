// The whole list.
ghost use Rattle.std.specs.Prelude.{◌≡◌};
ghost use Rattle.rules.specs.Answers.{after, reply_of};
ghost use Rattle.rules.specs.Calls.{cares, lent, list_values, room_in, values, whole};
ghost use Rattle.probe.specs.Packed.{packed_counts};

use crate::pack::count_reply;
use lists::whole_list;

#[unsafe(no_mangle)]
pub extern "C" fn probe_whole(
    n: u32,
    order: &[u32],
    on: &[i32],
    off: &[i32],
    care: &mut [u32],
    value: &mut [u32],
) -> u64
    ensures value { result ≡ packed_counts (reply_of list_values (whole n (lent order.now) (lent on.now) (lent off.now) (room_in care.old value.old))) }
    ensures care_after { care.new ≡ after cares (whole n (lent order.now) (lent on.now) (lent off.now) (room_in care.old value.old)) care.old }
    ensures value_after { value.new ≡ after values (whole n (lent order.now) (lent on.now) (lent off.now) (room_in care.old value.old)) value.old }
{
    count_reply(whole_list(n, order, on, off, care, value))
}
