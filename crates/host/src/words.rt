// Words in lent bytes: four bytes each, lowest first.
ghost use Rattle.std.specs.Prelude.{◌≡◌, ◌&&◌, ◌≤◌, IfErr, IfOk, is_ok, length, take};
ghost use Rattle.rules.specs.Words.{max_inputs, is_order};
ghost use Rattle.rules.specs.Calls.{words_of, none_left_over};

use rules::{Inputs, Refusal};
use sheets::{is_order, word_at};

// Copies the words of the bytes, as many as there is room for, and gives the copies.
#[tactic(auto, using(crate::proofs::Copies::copies))]
pub fn copy_words<'a>(bytes: &[u8], room: &'a mut [u32]) -> &'a [u32]
    ensures { result.now ≡ take (length room.old) (words_of bytes.now) }
{
    let count = room.len().min(bytes.len() / 4);
    let words = &mut room[..count];
    // By the index of the bytes' words: nothing is known of the cells that are written by a `zip` over `iter_mut`.
    for (k, word) in words.iter_mut().enumerate() {
        *word = word_at(bytes, k);
    }
    words
}

// Copies the words of an order of n inputs, with no bytes left over, and gives them; or refusal 2.
#[tactic(auto, using(crate::proofs::Copies::orders))]
pub fn order_words<'a>(n: Inputs, order: &[u8], room: &'a mut [u32]) -> Result<&'a [u32], Refusal>
    requires { max_inputs ≤ length room.old }
    ensures words { IfOk result (λ words. words.now ≡ words_of order.now) }
    ensures refused { IfErr result (λ f. f ≡ Refusal.Order) }
    ensures when { is_ok result ≡ (none_left_over order.now && is_order n.count (words_of order.now)) }
{
    let words = copy_words(order, room);
    if order.len() != 4 * n.count as usize || !is_order(n.count, words) {
        return Err(Refusal::Order);
    }
    Ok(words)
}
