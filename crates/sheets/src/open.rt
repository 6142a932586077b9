// A sheet read in place against a partial setting, the row of what is fixed so far: whether no clause is lost yet.
// A clause is lost where each of its literals has a fixed variable at the other value.
ghost use Rattle.std.specs.Prelude.{◌≡◌, true, false, ◌≤◌};
ghost use Rattle.rules.specs.Words.{max_inputs};
ghost use Rattle.rules.specs.Sheets.{variable, in_reach, every_clause};
ghost use Rattle.sheets.specs.Numbers.{numbers_of};
ghost use Rattle.sheets.specs.Open.{is_open};

use crate::literal::{is_true, variable};
use crate::numbers::Number;
use rules::{Row, Setting};

// The row does not fix the variable of the literal against it.
fn open_literal(literal: i32, row: Row) -> bool
    requires { (1 ≤ variable literal) × (variable literal ≤ max_inputs) }
    ensures { result ≡ is_open row literal }
{
    !variable(literal).is_one(row.care) || is_true(literal, Setting(row.value))
}

// No clause of the sheet in these bytes is lost under the row.
pub fn open_sheet(sheet: &[u8], row: Row) -> bool
    requires { in_reach max_inputs (numbers_of sheet.now) ≡ true }
    ensures { result ≡ every_clause (is_open row) false (numbers_of sheet.now) }
{
    let (numbers, _) = sheet.as_chunks::<4>();
    let mut met = false;
    for bytes in numbers {
        let literal = bytes.number();
        if literal == 0 {
            if !met {
                return false;
            }
            met = false;
        } else if !met {
            met = open_literal(literal, row);
        }
    }
    true
}
