// The sheet of a text.
ghost use Rattle.std.specs.Prelude.{◌≡◌, length};
ghost use Rattle.rules.specs.Calls.{read};
ghost use Rattle.printing.specs.Results.{sheet_is};

use rules::{Inputs, Refusal};

// The inputs that a text's header names, and its numbers.
#[derive(Clone, Copy)]
pub struct ReadSheet<'a> {
    pub inputs: Inputs,
    pub numbers: &'a [i32],
}

// The numbers stand in the first cells of a run that is lent for them.
pub fn read_sheet<'a>(text: &[u8], numbers: &'a mut [i32]) -> Result<ReadSheet<'a>, Refusal>
    ensures { sheet_is result ≡ read text.now (length numbers.old) }
{
    let (n, count) = dimacs::read(text, numbers)?;
    Ok(ReadSheet {
        inputs: Inputs { count: n },
        numbers: &numbers[..count],
    })
}
