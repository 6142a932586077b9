// Answers in one number: the reply's number, how many values, the second and the first of them.
ghost use Rattle.std.specs.Prelude.{◌≡◌, ◌+◌, ◌*◌, ◌<◌};
ghost use Rattle.rules.specs.Answers.{refusal_reply, query_reply, value_reply, count_reply, partial_reply, read_reply};
ghost use Rattle.rules.specs.Calls.{first};
ghost use Rattle.dimacs.specs.Parts.{token_is, step_is};
ghost use Rattle.probe.specs.Packed.{packed, packed_counts, packed_number, packed_token, packed_step};

use dimacs::{Step, Token};
use rules::{PartialAnswer, QueryAnswer, ReadAnswer, Refusal, ValueAnswer};

// What a reply's number is worth.
const NUMBER: u64 = 1 << 56;

// One value.
const ONE: u64 = 1 << 52;

// What the second value is worth: it stands above the 32 bits of the first.
const SECOND: u64 = 1 << 32;

// A refusal's setting fits in 32 bits.
fn refusal(f: Refusal) -> u64
    ensures whole { result ≡ packed (refusal_reply f) }
    ensures counts { result ≡ packed_counts (refusal_reply f) }
{
    let number = u64::from(f.number()) * NUMBER;
    match f {
        Refusal::Collision(s) => number + ONE + u64::from(s.0),
        _ => number,
    }
}

pub fn query_reply(answer: QueryAnswer) -> u64
    ensures { result ≡ packed (query_reply answer) }
{
    answer.map_or_else(refusal, |found| found.map_or(0, |s| ONE + u64::from(s.0)))
}

pub fn value_reply(answer: ValueAnswer) -> u64
    ensures { result ≡ packed (value_reply answer) }
{
    answer.map_or_else(refusal, |b| ONE + u64::from(b))
}

// The last 32 bits of a count.
pub fn count_reply(answer: Result<usize, Refusal>) -> u64
    ensures counts { result ≡ packed_counts (count_reply answer) }
    ensures whole { first (count_reply answer).values < 4294967296 → result ≡ packed (count_reply answer) }
{
    answer.map_or_else(refusal, |count| ONE + count as u64 % SECOND)
}

pub fn partial_reply(answer: PartialAnswer) -> u64
    ensures { result ≡ packed_counts (partial_reply answer) }
{
    answer.map_or_else(refusal, |(count, complete)| {
        2 * ONE + u64::from(complete) * SECOND + count as u64 % SECOND
    })
}

pub fn read_reply(answer: ReadAnswer) -> u64
    ensures { result ≡ packed_counts (read_reply answer) }
{
    answer.map_or_else(refusal, |(inputs, count)| {
        2 * ONE + count as u64 % (1 << 20) * SECOND + u64::from(inputs)
    })
}

// What the kind of a token is worth, which C is told as a number.
const KIND: u64 = 1 << 61;

fn signed(z: i64) -> u64
    ensures { result ≡ packed_number z }
{
    let kind = if z < 0 { 2 * KIND } else { KIND };
    kind + z.cast_unsigned() % SECOND
}

fn token_reply(token: Token) -> u64
    ensures { result ≡ packed_token (token_is token) }
{
    match token {
        Token::Number(z) => signed(z),
        Token::Percent => 3 * KIND,
        Token::Other => 4 * KIND,
    }
}

pub fn step_reply(step: Step) -> u64
    ensures { result ≡ packed_step (step_is step) }
{
    step.map_or(
        0,
        |(token, place)| token_reply(token) + place as u64 % (1 << 29) * SECOND,
    )
}
