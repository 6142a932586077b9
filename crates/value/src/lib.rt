// The value of a given list at a setting: the refusals in the order of their numbers, and then whether some row holds it.
#![tactic(auto)]

ghost use Rattle.std.specs.Prelude.{[], ◌∷◌, ◌≡◌};
ghost use Rattle.rules.specs.Words.{one, in_some};
ghost use Rattle.rules.specs.Answers.{value_reply, reply_of};
ghost use Rattle.rules.specs.Calls.{rows_in, value as value_of};
ghost use Rattle.given.specs.Given.{rows_of};

use given::{Given, given_list};
use rules::{Inputs, Refusal, Setting, ValueAnswer};

// The value of the first `count` rows at the setting.
#[tactic(auto, unfolding(rules::specs::Calls::value, rules::specs::Answers::judge))]
pub fn value_at(n: u32, count: usize, care: &[u32], value: &[u32], s: Setting) -> ValueAnswer
    ensures { value_reply result ≡ reply_of (λ b. one b ∷ []) (value_of n count (rows_in care.now value.now) s.0) }
{
    let inputs = Inputs::of(n)?;
    let list = given_list(inputs, count, care, value)?;
    if !s.fits(inputs) {
        return Err(Refusal::GivenSetting);
    }
    Ok(in_some(list, s))
}

// Some row holds the setting.
fn in_some(list: Given, s: Setting) -> bool
    ensures { result ≡ in_some (rows_of list.entry) s.0 }
{
    list.rows().any(|row| row.holds(s))
}
