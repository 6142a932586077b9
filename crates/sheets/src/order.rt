// Whether a run of words is an order: as long as there are inputs, with each of 1..n once.
ghost use Rattle.std.specs.Prelude.{◌≡◌};
ghost use Rattle.rules.specs.Words.{times, is_order};

// How often v stands in the order. Added up, since the library's count takes a branch at each word.
fn times(v: u32, order: &[u32]) -> usize
    ensures { result ≡ times v order.now }
{
    let mut found = 0;
    for w in order {
        found += usize::from(*w == v);
    }
    found
}

// The words are an order of n inputs. From n down, since n is what a run that counts from 0 lacks.
pub fn is_order(n: u32, order: &[u32]) -> bool
    ensures { result ≡ is_order n order.now }
{
    if order.len() != n as usize {
        return false;
    }
    for v in (1..=n).rev() {
        if times(v, order) != 1 {
            return false;
        }
    }
    true
}
