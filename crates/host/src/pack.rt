// An answer in one number: the refusal's, or 0, times 2 ^ 32, plus its first value, or 0.
ghost use Rattle.std.specs.Prelude.{◌≡◌};
ghost use Rattle.rules.specs.Answers.{count_reply};
ghost use Rattle.rules.specs.Calls.{packed};

use rules::Refusal;

// What a refusal's number is worth: it stands above the 32 bits of the first value.
const NUMBER: u64 = 1 << 32;

// A count, or the refusal, in one number.
pub fn packed(answer: Result<usize, Refusal>) -> u64
    ensures { result ≡ packed (count_reply answer) }
{
    match answer {
        Ok(count) => count as u64,
        Err(f) => u64::from(f.number()) * NUMBER + u64::from(f.payload()),
    }
}
