// The tokens of a body, one at a step.
ghost use Rattle.std.specs.Prelude.{◌≡◌, ◌<◌, length, IfSome};
ghost use Rattle.rules.specs.Dimacs.{token_of, step};
ghost use Rattle.dimacs.specs.Parts.{token_is, InReach, step_is, first_is, first_token};

use crate::decimal::decimal_within;
use crate::scan::{is_blank, split_front};

// A number in form, closing zeros with them; `%`, which ends the text; or anything else. 64 bits hold -v..v for every v.
#[derive(Clone, Copy, PartialEq, Eq)]
pub enum Token {
    Number(i64),
    Percent,
    Other,
}

// A token and the position behind it, or that none is left.
pub type Step = Option<(Token, usize)>;

// The token that a part is.
#[tactic(auto, using(crate::proofs::TokenKinds::plain))]
fn token_of(v: u32, part: &[u8]) -> Token
    ensures kind { token_is result ≡ token_of v part.now }
    ensures reach { InReach v result }
{
    if let [b'%'] = part {
        return Token::Percent;
    }
    if let Some(digits) = part.strip_prefix(b"-") {
        return decimal_within(digits, 1, v).map_or(Token::Other, |m| Token::Number(-i64::from(m)));
    }
    decimal_within(part, 0, v).map_or(Token::Other, |m| Token::Number(i64::from(m)))
}

// The first token of a text over the inputs 1..v, and what is left behind it; or that none is left. Inlined, since each
// answer would go through memory else.
#[inline(always)]
#[tactic(auto, using(crate::proofs::Steps::firsts))]
pub fn first_token(v: u32, text: &[u8]) -> Option<(Token, &[u8])>
    ensures token { first_is result ≡ first_token v text.now }
    ensures reach { IfSome result (λ (t, rest). InReach v t) }
    ensures shorter { IfSome result (λ (t, rest). length rest.now < length text.now) }
{
    let (_, rest) = split_front(text, is_blank);
    let (word, rest) = split_front(rest, |b| !is_blank(b));
    if word.is_empty() {
        return None;
    }
    Some((token_of(v, word), rest))
}

// The next token from a position on, over the inputs 1..v.
#[tactic(auto, using(crate::proofs::Steps::steps))]
pub fn next_token(v: u32, text: &[u8], at: usize) -> Step
    ensures step { step_is result ≡ step v text.now at }
    ensures reach { IfSome result (λ (t, place). InReach v t) }
{
    let (token, rest) = first_token(v, text.get(at..)?)?;
    Some((token, text.len() - rest.len()))
}
