// A text that is being written. What is put comes behind what was put before.
ghost use Rattle.std.specs.Prelude.{◌≡◌, ◌+◌, ◌≤◌, ℕ, length};
ghost use Rattle.rules.specs.Pla.{digit, digits};
ghost use Rattle.pla.specs.Written.{HasRoom, Writes, WritesEach};

use rules::{Inputs, Var};

// The lent bytes, and the position of the next one.
#[derive(Drop)]
pub struct Writer<'a> {
    pub text: &'a mut [u8],
    pub at: usize,
}

impl<'a> Writer<'a> {
    // At the start of a text.
    pub fn new(text: &'a mut [u8]) -> Writer<'a>
        ensures same { result.text.ghost_name ≡ text.entry.ghost_name }
        ensures text { result.text.now ≡ text.old }
        ensures at { result.at ≡ 0 }
    {
        Writer { text, at: 0 }
    }

    #[tactic(auto, using(crate::proofs::Positions::positions))]
    pub fn put_bytes(&mut self, new: &[u8])
        requires { HasRoom self.old new.now }
        ensures { Writes self.old new.now self.new }
    {
        let end = self.at + new.len();
        // Byte by byte: a copy between slices looks first whether they overlap, which costs more than the few bytes that are put.
        for (k, byte) in new.iter().enumerate() {
            self.text[self.at + k] = *byte;
        }
        self.at = end;
    }

    // The last three digits of a number, without leading zeros.
    // By hand, since these are promised for every number, and the library's decimals are them only below 1,000.
    #[tactic(auto, using(crate::proofs::Positions::positions), unfolding(rules::specs::Pla::digits))]
    pub fn put_digits(&mut self, m: usize)
        requires { HasRoom self.old (digits m) }
        ensures { Writes self.old (digits m) self.new }
    {
        let ones = digit_of(m);
        if m < 10 {
            return self.put_bytes(&[ones]);
        }
        let tens = digit_of(m / 10);
        if m < 100 {
            return self.put_bytes(&[tens, ones]);
        }
        self.put_bytes(&[digit_of(m / 100), tens, ones]);
    }

    // A character for each of n variables, variable 1 first.
    #[tactic(auto, using(crate::proofs::Positions::positions))]
    pub fn put_each<F: Fn(Var) -> u8>(&mut self, n: Inputs, char_of: F)
        requires callable { (v : ℕ) → 1 ≤ v → v ≤ n.count → F.pre char_of (record { 0 = v }) }
        requires room { self.old.at + n.count ≤ length self.old.text.now }
        ensures { WritesEach (λ v ch. F.post char_of (record { 0 = v }) ch) n.count self.old self.new }
    {
        for k in 0..n.count {
            self.put_bytes(&[char_of(Var(k + 1))]);
        }
    }
}

// The last decimal digit of m.
fn digit_of(m: usize) -> u8
    ensures { result ≡ digit m }
{
    b'0' + (m % 10) as u8
}

// How many digits are put for m: three from 100 on, however large it is.
#[tactic(auto, using(std::proofs::lemmas::Bool::Decides::nat_tests), unfolding(rules::specs::Pla::digits))]
pub(crate) fn digit_count(m: usize) -> usize
    ensures { result ≡ length (digits m) }
{
    if m < 10 {
        1
    } else if m < 100 {
        2
    } else {
        3
    }
}
