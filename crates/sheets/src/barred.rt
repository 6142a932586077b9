// The rows that a sheet bars, one for each clause that has no variable with both signs: a setting satisfies the sheet
// exactly if it lies in none of them.
ghost use Rattle.std.specs.Prelude.{◌≡◌, true, ◌≤◌, length, Some};
ghost use Rattle.rules.specs.Words.{max_inputs};
ghost use Rattle.rules.specs.Sheets.{variable, clauses, well_formed};
ghost use Rattle.rules.specs.Answers.{over};
ghost use Rattle.sheets.specs.Barred.{with_literal, barred};

use crate::literal::{is_true, positive, variable};
use rules::{Inputs, Row, Setting};

// The clause with one more literal. A clause as far as it was read is the row that it bars, if it has no variable with both signs.
fn with_literal(clause: Option<Row>, literal: i32) -> Option<Row>
    requires { (1 ≤ variable literal) × (variable literal ≤ max_inputs) }
    ensures { result ≡ with_literal literal clause }
{
    let row = clause?;
    let v = variable(literal);
    if !v.is_one(row.care) {
        Some(row.fixed_at(!positive(literal), v))
    } else if is_true(literal, Setting(row.value)) {
        None
    } else {
        Some(row)
    }
}

// Writes the barred rows of the sheet over the first rows of the run, and gives their count.
pub fn bar(n: Inputs, sheet: &[i32], rows: &mut [Row]) -> usize
    requires sheet_value { well_formed n.count sheet.now ≡ true }
    requires sheet_in_bounds { clauses sheet.now ≤ length rows.old }
    ensures rows_after { rows.new ≡ over (barred sheet.now) rows.old }
    ensures value { result ≡ length (barred sheet.now) }
{
    // The rows are counted beside the literals, since a clause with both signs leaves none.
    let mut count = 0;
    let mut clause = Some(Row::dashes());
    for &literal in sheet {
        if literal == 0 {
            if let Some(row) = clause {
                rows[count] = row;
                count += 1;
            }
            clause = Some(Row::dashes());
        } else {
            clause = with_literal(clause, literal);
        }
    }
    count
}
