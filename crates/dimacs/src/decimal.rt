// Decimals without leading zeros, within bounds.
ghost use Rattle.std.specs.Prelude.{◌≡◌, ◌≤◌, IfSome};
ghost use Rattle.dimacs.specs.Parts.{decimal_of, digits_within, decimal_within};

// The number of a run of digits, within the bounds. Digits only make a number larger, so what is above the bound stays
// so and is given up at once.
#[tactic(auto, using(crate::proofs::Decimals::digits))]
fn digits_within(part: &[u8], low: u32, high: u32) -> Option<u32>
    ensures value { decimal_of result ≡ digits_within low high 0 part.now }
    ensures bounds { IfSome result (λ m. (low ≤ m) × (m ≤ high)) }
{
    let mut sum: u64 = 0;
    for b in part {
        if !b.is_ascii_digit() {
            return None;
        }
        sum = sum * 10 + u64::from(*b - b'0');
        if u64::from(high) < sum {
            return None;
        }
    }
    // 32 bits hold the sum, which is at most the bound.
    (u64::from(low) <= sum).then_some(sum as u32)
}

// The decimal that a part is.
#[tactic(auto, using(crate::proofs::Decimals::decimals))]
pub fn decimal_within(part: &[u8], low: u32, high: u32) -> Option<u32>
    ensures value { decimal_of result ≡ decimal_within low high part.now }
    ensures bounds { IfSome result (λ m. (low ≤ m) × (m ≤ high)) }
{
    let (first, rest) = part.split_first()?;
    if *first == b'0' && !rest.is_empty() {
        return None;
    }
    digits_within(part, low, high)
}
