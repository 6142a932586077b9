// A whole text. The refusals are judged in the order of their numbers, and all before the first number is written.
ghost use Rattle.std.specs.Prelude.{◌≡◌, ◌≤◌, length};
ghost use Rattle.rules.specs.Dimacs.{max_bytes};
ghost use Rattle.rules.specs.Answers.{read_reply, reply_of, after};
ghost use Rattle.rules.specs.Calls.{Read, read_values, read};
ghost use Rattle.dimacs.specs.Verdicts.{verdict_for, cells_of};

use crate::header::{Header, header_of};
use rules::{ReadAnswer, Refusal, Sheet, Text};

// The body behind a header: 12, 13 and 15, and then the numbers.
#[tactic(auto, using(crate::proofs::Readings::verdicts))]
fn read_body(h: Header<'_>, numbers: &mut [i32]) -> ReadAnswer
    ensures reply { read_reply result ≡ reply_of read_values (verdict_for h.entry (length numbers.old)) }
    ensures memory { numbers.new ≡ cells_of (verdict_for h.entry (length numbers.old)) numbers.old }
{
    let tally = h.body.judge()?;
    if tally.zeros != h.clauses || !tally.closed {
        return Err(Refusal::Clauses);
    }
    if numbers.len().min(Sheet::MAX_NUMBERS) < tally.numbers {
        return Err(Refusal::Room);
    }
    h.body.write(numbers);
    Ok((h.body.inputs.count, tally.numbers))
}

// The sheet of a DIMACS text: V, and its numbers in the first cells.
#[tactic(auto, using(crate::proofs::Readings::read_told))]
pub fn read(text: &[u8], numbers: &mut [i32]) -> ReadAnswer
    ensures reply { read_reply result ≡ reply_of read_values (read text.now (length numbers.old)) }
    ensures memory { numbers.new ≡ after (λ (x : Read). x.numbers) (read text.now (length numbers.old)) numbers.old }
{
    if Text::MAX_BYTES < text.len() {
        return Err(Refusal::LongText);
    }
    read_body(header_of(text).ok_or(Refusal::Header)?, numbers)
}
