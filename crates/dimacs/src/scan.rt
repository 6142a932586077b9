// Bytes at the front of a text, and what is left behind them.
ghost use Rattle.std.specs.Prelude.{◌≡◌, ◌+◌, Bool, ℕ, length};
ghost use Rattle.rules.specs.Dimacs.{is_blank, front, after_all, after_spaces};
ghost use Rattle.dimacs.specs.Rests.{Tells, rest_of};

pub fn is_blank(b: u8) -> bool
    ensures { result ≡ is_blank b }
{
    // Two halves compile to one test of a bit, and a single match to a chain of branches.
    matches!(b, b' ' | b'\t') | matches!(b, b'\r' | b'\n')
}

// All bytes of a kind at the front of a text, and what is left behind them; the kind is the one that the test tells.
pub fn split_front<F: Fn(u8) -> bool>(text: &[u8], is_kind: F) -> (&[u8], &[u8])
    requires { F.IsAlwaysCallable is_kind }
    ensures len { length result.0.now + length result.1.now ≡ length text.now }
    ensures parts { (kind : ℕ → Bool) → Tells (F.post is_kind) kind
        → (result.0.now ≡ front kind text.now) × (result.1.now ≡ after_all kind text.now) }
{
    let n = text.iter().take_while(|b| is_kind(**b)).count();
    text.split_at(n)
}

// The rest behind one or more spaces. Inlined, as first_token is.
#[inline(always)]
#[tactic(auto, using(crate::proofs::Bytes::words))]
pub fn after_spaces(text: &[u8]) -> Option<&[u8]>
    ensures { rest_of result ≡ after_spaces text.now }
{
    let rest = text.strip_prefix(b" ")?;
    Some(split_front(rest, |b| b == b' ').1)
}
