// The body, twice over: once to judge and count all of its numbers, and once to write them. Nothing is written before
// all is judged.
ghost use Rattle.std.specs.Prelude.{◌≡◌, ◌≤◌, ◌<◌, ◌+◌, ◌^◌, IfErr, length};
ghost use Rattle.rules.specs.Answers.{over};
ghost use Rattle.rules.specs.declared.Refusal.TheVariants as refusal;
ghost use Rattle.dimacs.specs.Bodies.{numbers_of, Follows, nothing, counted, body_is, judged, sheet_of, HasRoom};

use crate::token::{Token, first_token};
use rules::{Inputs, Refusal};

// What is left of a body over the inputs 1..v.
#[derive(Clone, Copy)]
pub struct Body<'a> {
    pub inputs: Inputs,
    pub text: &'a [u8],
}

impl Body<'_> {
    // The next number, and on behind it; or that none is left. Inlined, as first_token is.
    #[inline(always)]
    #[tactic(auto, using(crate::proofs::Following::numbers_first), unfolding(crate::specs::Bodies::prepend))]
    fn next(&mut self) -> Result<Option<i32>, Refusal>
        ensures { Follows self.old self.new result }
    {
        match first_token(self.inputs.count, self.text) {
            None | Some((Token::Percent, _)) => Ok(None),
            Some((Token::Other, _)) => Err(Refusal::Token),
            Some((Token::Number(z), rest)) => {
                self.text = rest;
                // 32 bits hold the number, which lies in -v..v.
                Ok(Some(z as i32))
            }
        }
    }

    // All tokens are judged, and the numbers counted.
    #[tactic(auto, using(crate::proofs::Tallies::tallies))]
    pub fn judge(self) -> Result<Tally, Refusal>
        ensures tally { body_is result ≡ judged nothing (numbers_of self.entry) }
        ensures refused { IfErr result (λ f. f ≡ refusal.Token) }
    {
        let mut rest = self;
        let mut tally = Tally::nothing();
        while let Some(z) = rest.next()? {
            tally = tally.counted(z);
        }
        Ok(tally)
    }

    // The numbers are written over the first cells. Their room has been judged.
    pub fn write(self, numbers: &mut [i32])
        requires { HasRoom (numbers_of self) (length numbers.old) }
        ensures { numbers.new ≡ over (sheet_of (numbers_of self.entry)) numbers.old }
    {
        let mut rest = self;
        for cell in numbers.iter_mut() {
            let Ok(Some(z)) = rest.next() else {
                return;
            };
            *cell = z;
        }
    }
}

// Of the numbers read: how many, how many of them 0, and whether the last is.
#[derive(Clone, Copy)]
pub struct Tally {
    pub numbers: usize,
    pub zeros: usize,
    pub closed: bool,
}

impl Tally {
    fn nothing() -> Tally
        ensures { result ≡ nothing }
    {
        Tally {
            numbers: 0,
            zeros: 0,
            closed: true,
        }
    }

    // With one more number.
    #[tactic(auto, using(crate::proofs::Tallies::zero_bits), unfolding(crate::specs::Bodies::counted))]
    fn counted(self, z: i32) -> Tally
        requires { (self.numbers + 1 < 2 ^ 64) × (self.zeros ≤ self.numbers) }
        ensures { result ≡ counted z self }
    {
        Tally {
            numbers: self.numbers + 1,
            zeros: self.zeros + usize::from(z == 0),
            closed: z == 0,
        }
    }
}
