// The calls on a given list.
ghost use Rattle.std.specs.Prelude.{[], ◌∷◌, ◌≡◌, length};
ghost use Rattle.rules.specs.Words.{one};
ghost use Rattle.rules.specs.Answers.{reply_of, after};
ghost use Rattle.rules.specs.Calls.{rows_in, value as value_of, write};
ghost use Rattle.probe.specs.Packed.{packed};

use crate::pack::{count_reply, value_reply};
use rules::Setting;
use value::value_at;

#[unsafe(no_mangle)]
pub extern "C" fn probe_value(
    n: u32,
    count: usize,
    care: &[u32],
    value: &[u32],
    setting: u32,
) -> u64
    ensures { result ≡ packed (reply_of (λ b. one b ∷ []) (value_of n count (rows_in care.now value.now) setting)) }
{
    value_reply(value_at(n, count, care, value, Setting(setting)))
}

#[unsafe(no_mangle)]
pub extern "C" fn probe_write(
    n: u32,
    count: usize,
    care: &[u32],
    value: &[u32],
    text: &mut [u8],
) -> u64
    ensures value { result ≡ packed (reply_of (λ t. length t ∷ []) (write n count (rows_in care.now value.now) (length text.old))) }
    ensures text_after { text.new ≡ after (λ t. t) (write n count (rows_in care.now value.now) (length text.old)) text.old }
{
    count_reply(pla::write(n, count, care, value, text))
}
