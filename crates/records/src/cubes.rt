// A run of cube records is pruned where it stands.
ghost use Rattle.std.specs.Prelude.{[], ◌∷◌, map, ◌≡◌, ◌≤◌, length};
ghost use Rattle.std.specs.List.{list_all};
ghost use Rattle.rules.specs.Words.{is_row};
ghost use Rattle.rules.specs.Answers.{prune_reply, reply_of};
ghost use Rattle.rules.specs.Calls.{kept, prune};
ghost use Rattle.method.specs.Blank.{is_blank};
ghost use Rattle.given.specs.Given.{in_form};
ghost use Rattle.records.specs.Marks.{marked, marked_by, row_of};

use crate::rows::prune_rows;
use method::solid::is_blank;
use rules::{Inputs, List, PruneAnswer, Refusal, Row};

// A row, and whether pruning dropped it.
#[derive(Clone, Copy)]
pub struct Cube {
    pub care: u32,
    pub value: u32,
    pub dropped: bool,
}

impl From<Cube> for Row {
    ghost from_gives = { λ cube row. row ≡ row_of cube };

    fn from(cube: Cube) -> Row {
        Row {
            care: cube.care,
            value: cube.value,
        }
    }
}

// All of the records hold rows of n inputs. One test for these and for a given list's rows, over any iterator, is no plainer: its clauses
// would have to say which rows the iterator gives.
fn are_rows(n: Inputs, records: &[Cube]) -> bool
    ensures { result ≡ list_all (λ c. is_row n.count (row_of c)) records.now }
{
    records.iter().all(|record| Row::from(*record).is_row(n))
}

// The first `count` records are there, are at most 256, and hold rows of n inputs.
#[tactic(auto, using(crate::proofs::Verdict::formed))]
fn in_form(n: Inputs, records: &[Cube], count: usize) -> bool
    ensures { result ≡ in_form n.count count (map row_of records.now) }
{
    count <= records.len() && count <= List::MAX_ROWS && are_rows(n, &records[..count])
}

// Copies the rows of the records.
fn copy_rows(records: &[Cube], rows: &mut [Row])
    requires { length records.now ≡ length rows.old }
    ensures { rows.new ≡ map row_of records.now }
{
    // A `zip` over `iter_mut` says nothing of the cells that are written.
    for (k, record) in records.iter().enumerate() {
        rows[k] = Row::from(*record);
    }
}

// Marks the first records, as many as there are rows, by which rows are blanked.
#[tactic(auto, using(crate::proofs::Marking::marked_row), unfolding(crate::specs::Marks::marked_by))]
fn write_marks(records: &mut [Cube], rows: &[Row])
    requires { length rows.now ≤ length records.old }
    ensures { records.new ≡ marked_by (map is_blank rows.now) records.old }
{
    // A `zip` over `iter_mut` says nothing of the cells that are written.
    for (k, row) in rows.iter().enumerate() {
        records[k].dropped = is_blank(*row);
    }
}

// Prunes the first `count` records: each is marked kept or dropped where it stands. The answer is the number kept, or the refusal.
#[tactic(auto, using(crate::proofs::Verdict::verdicts))]
pub fn prune_records(n: u32, records: &mut [Cube], count: usize) -> PruneAnswer
    ensures { (prune_reply result ≡ reply_of (λ m. kept m ∷ []) (prune n count (map row_of records.old)))
        × (records.new ≡ marked (prune n count (map row_of records.old)) records.old) }
{
    let inputs = Inputs::of(n)?;
    if !in_form(inputs, records, count) {
        return Err(Refusal::GivenList);
    }
    let mut cells = [Row::dashes(); List::MAX_ROWS];
    let rows = &mut cells[..count];
    copy_rows(&records[..count], rows);
    let stay = prune_rows(inputs, rows);
    write_marks(records, rows);
    Ok(stay)
}

// The answer, and the records after the call.
#[derive(Clone, Copy)]
pub struct Pruned {
    pub answer: PruneAnswer,
    pub records: [Cube; List::MAX_ROWS],
}

// By value: an array of records goes in and comes back.
pub fn pruned_array(n: u32, mut records: [Cube; List::MAX_ROWS], count: usize) -> Pruned
    ensures { (prune_reply result.answer ≡ reply_of (λ m. kept m ∷ []) (prune n count (map row_of records)))
        × (result.records ≡ marked (prune n count (map row_of records)) records) }
{
    let answer = prune_records(n, &mut records, count);
    Pruned { answer, records }
}
