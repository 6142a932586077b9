// Whether a lent run is a well-formed sheet.
ghost use Rattle.std.specs.Prelude.{◌≡◌, true, ◌&&◌, map};
ghost use Rattle.rules.specs.Sheets.{clauses, ends_closed, in_reach, well_formed};
ghost use Rattle.rules.specs.Calls.{none_left_over};
ghost use Rattle.sheets.specs.Numbers.{numbers_of};

use crate::numbers::Number;
use rules::Sheet;

// How many of the numbers close a clause. Added up, since the library's count takes a branch at each number.
fn clauses<N: Number>(sheet: &[N]) -> usize
    ensures { result ≡ clauses (map N.number sheet.now) }
{
    let mut found = 0;
    for x in sheet {
        found += usize::from(x.closes());
    }
    found
}

// The last number, if there is one, closes a clause.
fn ends_closed<N: Number>(sheet: &[N]) -> bool
    ensures { result ≡ ends_closed true (map N.number sheet.now) }
{
    sheet.last().is_none_or(|x| x.closes())
}

// Every number lies in -n..n. All are looked at, since to stop early takes a branch at each.
fn in_reach<N: Number>(n: u32, sheet: &[N]) -> bool
    ensures { result ≡ in_reach n (map N.number sheet.now) }
{
    let mut all = true;
    for x in sheet {
        all &= x.is_within(n);
    }
    all
}

// The numbers are a well-formed sheet of n inputs, however they are lent.
#[tactic(auto, using(crate::proofs::Forms::formed))]
fn is_sheet<N: Number>(n: u32, sheet: &[N]) -> bool
    ensures { result ≡ well_formed n (map N.number sheet.now) }
{
    sheet.len() <= Sheet::MAX_NUMBERS
        && clauses(sheet) <= Sheet::MAX_CLAUSES
        && ends_closed(sheet)
        && in_reach(n, sheet)
}

// The words are a well-formed sheet of n inputs.
pub fn well_formed(n: u32, sheet: &[i32]) -> bool
    ensures { result ≡ well_formed n sheet.now }
{
    is_sheet(n, sheet)
}

// The bytes are a well-formed sheet of n inputs, with none left over.
pub fn well_formed_bytes(n: u32, sheet: &[u8]) -> bool
    ensures { result ≡ (none_left_over sheet.now && well_formed n (numbers_of sheet.now)) }
{
    let (numbers, left_over) = sheet.as_chunks::<4>();
    left_over.is_empty() && is_sheet(n, numbers)
}
