// The PLA writer for the host.
ghost use Rattle.std.specs.Prelude.{[], ◌∷◌, ◌≡◌, length};
ghost use Rattle.rules.specs.Answers.{write_reply, reply_of, after};
ghost use Rattle.rules.specs.Calls.{host_write, packed};

use crate::pack::packed;
use crate::words::copy_words;
use rules::{List, WriteAnswer};

// Writes the text of the first `count` rows; the answer is its length.
#[unsafe(no_mangle)]
pub extern "C" fn glimmeldoek_pla(
    n: u32,
    count: u32,
    care: &[u8],
    value: &[u8],
    text: &mut [u8],
) -> u64
    ensures value { result ≡ packed (reply_of (λ t. length t ∷ []) (host_write n count care.now value.now (length text.old))) }
    ensures text_after { text.new ≡ after (λ t. t) (host_write n count care.now value.now (length text.old)) text.old }
{
    packed(write(n, count as usize, care, value, text))
}

// The same, with the answer by its cases. The writer takes the runs in words, and looks at no more than these.
fn write(n: u32, count: usize, care: &[u8], value: &[u8], text: &mut [u8]) -> WriteAnswer
    ensures result_value { write_reply result ≡ reply_of (λ t. length t ∷ []) (host_write n count care.now value.now (length text.old)) }
    ensures text_after { text.new ≡ after (λ t. t) (host_write n count care.now value.now (length text.old)) text.old }
{
    let mut cares = [0; List::MAX_ROWS];
    let mut values = [0; List::MAX_ROWS];
    let most = count.min(List::MAX_ROWS);
    let care = copy_words(care, &mut cares[..most]);
    let value = copy_words(value, &mut values[..most]);
    pla::write(n, count, care, value, text)
}
