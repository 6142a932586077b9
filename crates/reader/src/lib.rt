// A reader holds a text and its position in it, and gives one token at each step.
#![tactic(auto)]

ghost use Rattle.std.specs.Prelude.{◌≡◌};
ghost use Rattle.rules.specs.Dimacs.{step};
ghost use Rattle.dimacs.specs.Parts.{step_is};
ghost use Rattle.reader.specs.Moves.{moved, moved_on};

use dimacs::{Step, next_token};

// The position is the number of bytes passed.
#[derive(Clone, Copy)]
pub struct Reader<'a> {
    pub text: &'a [u8],
    pub position: usize,
}

impl<'a> Reader<'a> {
    pub fn at(text: &'a [u8], position: usize) -> Reader<'a>
        ensures { (result.text ≡ text.entry) × (result.position ≡ position) }
    {
        Reader { text, position }
    }

    // One step over the inputs 1..v: the next token, and on behind it; or that none is left, and the position stays.
    pub fn next(&mut self, v: u32) -> Step
        ensures { (step_is result ≡ step v self.old.text.now self.old.position)
            × ((self.new.text ≡ self.old.text) × (self.new.position ≡ moved v self.old.text.now self.old.position)) }
    {
        let step = next_token(v, self.text, self.position);
        self.position = step.map_or(self.position, |(_, place)| place);
        step
    }
}

// The token that is given after k others from a position on, or that none is left: on a plain text, for callers that keep no reader.
#[tactic(auto, unfolding(crate::specs::Moves::moved_on))]
pub fn token_after(v: u32, text: &[u8], position: usize, k: usize) -> Step
    ensures { step_is result ≡ step v text.now (moved_on v text.now position k) }
{
    let mut reader = Reader::at(text, position);
    for _ in 0..k {
        reader.next(v);
    }
    reader.next(v)
}
