// Numbers as they are lent: words, or four bytes each, lowest first.
ghost use Rattle.std.specs.Prelude.{◌≡◌, ◌/◌, ◌<◌, length, get_or, leb, ℤ};
ghost use Rattle.std.specs.Int.{w32, from_le_bytes, cast_signed};
ghost use Rattle.rules.specs.Sheets.{closes, variable};
ghost use Rattle.rules.specs.Calls.{words_of};

use crate::literal::variable;

// A lent number.
pub trait Number {
    ghost number: { Self → ℤ };

    fn number(&self) -> i32
        ensures { result ≡ number self.now };

    // It closes a clause.
    final fn closes(&self) -> bool
        ensures { result ≡ closes (number self.now) }
    {
        self.number() == 0
    }

    // It lies in -n..n.
    final fn is_within(&self, n: u32) -> bool
        ensures { result ≡ leb (variable (number self.now)) n }
    {
        variable(self.number()).0 <= n
    }
}

impl Number for i32 {
    ghost number = { λ z. z };

    fn number(&self) -> i32 {
        *self
    }
}

impl Number for [u8; 4] {
    ghost number = { λ bytes. cast_signed w32 (from_le_bytes w32 bytes) };

    fn number(&self) -> i32 {
        i32::from_le_bytes(*self)
    }
}

// The k-th word of the bytes.
pub fn word_at(bytes: &[u8], k: usize) -> u32
    requires { k < length bytes.now / 4 }
    ensures { result ≡ get_or (words_of bytes.now) k 0 }
{
    let (words, _) = bytes.as_chunks::<4>();
    u32::from_le_bytes(words[k])
}
