// List building for the host. The sheets are read where they lie.
ghost use Rattle.std.specs.Prelude.{◌≡◌};
ghost use Rattle.rules.specs.Answers.{list_reply, reply_of, after};
ghost use Rattle.rules.specs.Calls.{bytes_of, cares, values, host_whole, list_values, packed};

use crate::copy::copy_bytes;
use crate::pack::packed;
use crate::words::order_words;
use building::build::build;
use building::lent::Lent;
use rules::{Inputs, List, ListAnswer, Refusal, Row};
use sheets::well_formed_bytes;

// Builds the list, and writes its rows to the two runs; the answer is their count.
#[unsafe(no_mangle)]
pub extern "C" fn glimmeldoek_list(
    n: u32,
    order: &[u8],
    on: &[u8],
    off: &[u8],
    care: &mut [u8],
    value: &mut [u8],
) -> u64
    ensures value { result ≡ packed (reply_of list_values (host_whole n order.now on.now off.now care.old value.old)) }
    ensures care_after { care.new ≡ after (λ rows. bytes_of (cares rows)) (host_whole n order.now on.now off.now care.old value.old) care.old }
    ensures value_after { value.new ≡ after (λ rows. bytes_of (values rows)) (host_whole n order.now on.now off.now care.old value.old) value.old }
{
    packed(list(n, order, on, off, care, value))
}

// The same, with the answer by its cases. The runs are lent one by one, as C lends them.
#[tactic(auto, unfolding(rules::specs::Calls::whole, rules::specs::Calls::whole_for, rules::specs::Answers::judge))]
fn list(
    n: u32,
    order: &[u8],
    on: &[u8],
    off: &[u8],
    care: &mut [u8],
    value: &mut [u8],
) -> ListAnswer
    ensures result_value { list_reply result ≡ reply_of list_values (host_whole n order.now on.now off.now care.old value.old) }
    ensures care_after { care.new ≡ after (λ rows. bytes_of (cares rows)) (host_whole n order.now on.now off.now care.old value.old) care.old }
    ensures value_after { value.new ≡ after (λ rows. bytes_of (values rows)) (host_whole n order.now on.now off.now care.old value.old) value.old }
{
    let n = Inputs::of(n)?;
    let mut words = [0; Row::MAX_INPUTS as usize];
    let order = order_words(n, order, &mut words)?;
    if !well_formed_bytes(n.count, on) {
        return Err(Refusal::OnSheet);
    }
    if !well_formed_bytes(n.count, off) {
        return Err(Refusal::OffSheet);
    }
    let lent = Lent {
        order,
        on,
        off,
        both: &[],
        offs: 0,
    };
    let mut kept = [Row::dashes(); List::MAX_ROWS];
    let built = build(&lent, &mut kept, care.len().min(value.len()) / 4)?;
    Ok(copy_bytes(&kept[..built.generated], care, value))
}
