// The list of two sheets.
ghost use Rattle.std.specs.Prelude.{◌≡◌, ◌≤◌, length};
ghost use Rattle.rules.specs.Program.{list_output};
ghost use Rattle.printing.specs.Printed.{max_printed};
ghost use Rattle.printing.specs.Results.{Prints, line_over, read_of};

use crate::sheet::ReadSheet;
use rules::{List, Row, WriteAnswer, natural_order};

// The list of two sheets over the same inputs, or its refusal.
pub fn put_list(on: ReadSheet, off: ReadSheet, out: &mut [u8]) -> WriteAnswer
    requires { max_printed ≤ length out.old }
    ensures { let n = on.entry.inputs.count in
        Prints (line_over n) (list_output n (read_of on.entry) (read_of off.entry)) out.old result out.new }
{
    let n = on.inputs.count;
    let mut order = [0; Row::MAX_INPUTS as usize];
    let order = &mut order[..n as usize];
    natural_order(order);
    // The rows stand in two runs of words, since both calls take them so.
    let mut care = [0; List::MAX_ROWS];
    let mut value = [0; List::MAX_ROWS];
    let count = lists::whole_list(n, order, on.numbers, off.numbers, &mut care, &mut value)?;
    pla::write(n, count, &care, &value, out)
}
