// What list building is lent, in either way.
ghost use Rattle.std.specs.Prelude.{◌≡◌, ◌≤◌, length, take, drop};
ghost use Rattle.sheets.specs.Numbers.{numbers_of};
ghost use Rattle.search.specs.Question.{Asked};

use rules::Row;

// Sheets in place; `both` has the rows that off's other clauses bar, `offs` of them, and then on's: one run, since the collision is one
// question over the rows of both.
#[derive(Clone, Copy)]
pub struct Lent<'a> {
    pub order: &'a [u32],
    pub on: &'a [u8],
    pub off: &'a [u8],
    pub both: &'a [Row],
    pub offs: usize,
    pub ghost asked: { Asked order.now (numbers_of on.now) (numbers_of off.now) both.now },
    pub ghost within: { offs ≤ length both.now },
}

impl<'a> Lent<'a> {
    // The rows that off's other clauses bar.
    pub fn off_rows(&self) -> &'a [Row]
        ensures { result.now ≡ take self.now.offs self.now.both.now }
    {
        &self.both[..self.offs]
    }

    // The rows that on's other clauses bar.
    pub fn on_rows(&self) -> &'a [Row]
        ensures { result.now ≡ drop self.now.offs self.now.both.now }
    {
        &self.both[self.offs..]
    }
}
