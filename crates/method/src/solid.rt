// The rows that are left are handed over: their care words in one run, their value words in another, as the calls lend them.
ghost use Rattle.std.specs.Prelude.{◌≡◌, ◌≤◌, length};
ghost use Rattle.rules.specs.Answers.{over};
ghost use Rattle.rules.specs.Calls.{cares, values};
ghost use Rattle.method.specs.Blank.{is_blank, solid};

use crate::cells::{Cells, Words};
use rules::Row;

// What stands where a row went: no row of a list.
pub const BLANK: Row = Row { care: 0, value: 1 };

// The row is a blank.
pub fn is_blank(row: Row) -> bool
    ensures { result ≡ is_blank row }
{
    row == BLANK
}

// Copies the rows that are no blanks, in order, to the first cells of the two runs, and gives their count.
pub fn hand_over<C: Cells, V: Cells>(rows: &[Row], care: &mut C, value: &mut V) -> usize
    requires care_has_room { length (solid rows.now) ≤ C.room (C.now care.old) }
    requires value_has_room { length (solid rows.now) ≤ V.room (V.now value.old) }
    ensures care_same { C.name care.new ≡ C.name care.old }
    ensures care_after { C.now care.new ≡ C.with (cares (solid rows.now)) (C.now care.old) }
    ensures value_same { V.name value.new ≡ V.name value.old }
    ensures value_after { V.now value.new ≡ V.with (values (solid rows.now)) (V.now value.old) }
    ensures value { result ≡ length (solid rows.now) }
{
    // The cells are counted beside the rows, since blanks are passed over and the count is the answer.
    let mut count = 0;
    for row in rows {
        if !is_blank(*row) {
            care.put(count, row.care);
            value.put(count, row.value);
            count += 1;
        }
    }
    count
}

// The same, to runs of words.
pub fn copy_solid(rows: &[Row], care: &mut [u32], value: &mut [u32]) -> usize
    requires care_has_room { length (solid rows.now) ≤ length care.old }
    requires value_has_room { length (solid rows.now) ≤ length value.old }
    ensures care_after { care.new ≡ over (cares (solid rows.now)) care.old }
    ensures value_after { value.new ≡ over (values (solid rows.now)) value.old }
    ensures value { result ≡ length (solid rows.now) }
{
    hand_over(rows, &mut Words { run: care }, &mut Words { run: value })
}
