// The PLA writer. Everything is decided before the first byte is written: the refusals in the order of their numbers, and
// for the last of them the text's length, by arithmetic. A refusal leaves the lent bytes as they were.
#![tactic(auto)]

mod list;
mod writer;

ghost use Rattle.std.specs.Prelude.{[], ◌∷◌, ◌≡◌, length};
ghost use Rattle.rules.specs.Answers.{write_reply, reply_of, after};
ghost use Rattle.rules.specs.Calls.{rows_in, write};
ghost use Rattle.rules.specs.Pla.{text_of};
ghost use Rattle.given.specs.Given.{rows_of};

use given::{Given, given_list};
use rules::{Inputs, Refusal, WriteAnswer};
use writer::digit_count;
// For callers that put other texts together.
pub use writer::Writer;

// The text of the first `count` rows; the answer is its length.
#[tactic(auto, using(crate::proofs::Positions::positions), unfolding(rules::specs::Calls::write, rules::specs::Answers::judge))]
pub fn write(n: u32, count: usize, care: &[u32], value: &[u32], text: &mut [u8]) -> WriteAnswer
    ensures result_value { write_reply result ≡ reply_of (λ t. length t ∷ []) (write n count (rows_in care.now value.now) (length text.old)) }
    ensures text_after { text.new ≡ after (λ t. t) (write n count (rows_in care.now value.now) (length text.old)) text.old }
{
    let inputs = Inputs::of(n)?;
    let list = given_list(inputs, count, care, value)?;
    if text.len() < text_size(list) {
        return Err(Refusal::Room);
    }
    let mut writer = Writer::new(text);
    writer.put_list(list);
    Ok(writer.at)
}

// The length of a list's text: 16 bytes whatever the list, the digits of two numbers, and n + 3 bytes for each row.
#[tactic(auto, using(crate::proofs::Parts::sizes))]
fn text_size(list: Given) -> usize
    ensures { result ≡ length (text_of list.entry.inputs.count (rows_of list.entry)) }
{
    let inputs = list.inputs.count as usize;
    let count = list.count();
    16 + digit_count(inputs) + digit_count(count) + count * (inputs + 3)
}
