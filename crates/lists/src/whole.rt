// The whole list, from sheets in words: each clause is kept as the row that it bars.
ghost use Rattle.std.specs.Prelude.{◌≡◌};
ghost use Rattle.rules.specs.Answers.{after, list_reply, reply_of};
ghost use Rattle.rules.specs.Calls.{cares, lent, list_values, room_in, values, whole};

use crate::barring::{BOTH, KEPT, lend_barred};
use crate::formed::form_of;
use building::build::build;
use method::solid::copy_solid;
use rules::{ListAnswer, Row};

// The list's rows over the first cells of the two runs, and their count.
#[tactic(auto, using(crate::proofs::Forms::whole_steps))]
pub fn whole_list(
    n: u32,
    order: &[u32],
    on: &[i32],
    off: &[i32],
    care: &mut [u32],
    value: &mut [u32],
) -> ListAnswer
    ensures result_value { list_reply result ≡ reply_of list_values (whole n (lent order.now) (lent on.now) (lent off.now) (room_in care.old value.old)) }
    ensures care_after { care.new ≡ after cares (whole n (lent order.now) (lent on.now) (lent off.now) (room_in care.old value.old)) care.old }
    ensures value_after { value.new ≡ after values (whole n (lent order.now) (lent on.now) (lent off.now) (room_in care.old value.old)) value.old }
{
    let n = form_of(n, order, on, off)?;
    let mut both = [Row::dashes(); BOTH];
    let lent = lend_barred(n, order, on, off, &mut both);
    let mut kept = [Row::dashes(); KEPT];
    let built = build(&lent, &mut kept, care.len().min(value.len()))?;
    let ons = lent.on_rows().len();
    copy_solid(&kept[ons..ons + built.generated], care, value);
    Ok(built.count)
}
