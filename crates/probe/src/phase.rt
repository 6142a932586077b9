// The search phase by itself, to measure: every setting that a sheet asks for, each sought from the last one on and kept as the row
// of all its literals, which the next must avoid. Two entries that differ in how the sheet is lent, since C measures both.
ghost use Rattle.std.specs.Prelude.{◌≡◌, true, cond, eqb, [], ◌++◌, ◌+◌, ◌*◌, ◌/◌, ◌≤◌, ◌<◌, length, take, set};
ghost use Rattle.rules.specs.Words.{is_order};
ghost use Rattle.rules.specs.Sheets.{max_clauses, well_formed};
ghost use Rattle.rules.specs.Method.{all, generated};
ghost use Rattle.rules.specs.Answers.{over};
ghost use Rattle.sheets.specs.Barred.{barred};
ghost use Rattle.sheets.specs.Numbers.{numbers_of};
ghost use Rattle.search.specs.Question.{Asked};
ghost use Rattle.method.specs.Lent.{asks};
ghost use Rattle.probe.specs.Phase.{bytes_form, pairs_of, phase, phase_words, rows_form};

use rules::{Inputs, Row, Setting, Sheet};
use search::{Question, find_from};
use sheets::{bar, is_order, well_formed, well_formed_bytes};

// Rows that a search can be kept out of at once.
const CELLS: usize = 2 * Sheet::MAX_CLAUSES;

// Writes a row as the words at its place in a run: care, value.
fn put(words: &mut [u32], at: usize, row: Row)
    requires { 2 * at + 2 ≤ length words.old }
    ensures { words.new ≡ set (set words.old (2 * at) row.care) (2 * at + 1) row.value }
{
    words[2 * at] = row.care;
    words[2 * at + 1] = row.value;
}

// Writes the rows over the first words of the run.
fn put_rows(rows: &[Row], words: &mut [u32])
    requires { 2 * length rows.now ≤ length words.old }
    ensures { words.new ≡ over (pairs_of rows.now) words.old }
{
    for (at, &row) in rows.iter().enumerate() {
        put(words, at, row);
    }
}

// Where the next row is kept: behind the others, or, once the cells are full, where the first of those found stands. The rows of
// settings below the start of the search need not be avoided.
fn place(ons: usize, held: usize, room: usize) -> usize
    ensures { result ≡ cond (eqb held room) ons held }
{
    if held == room { ons } else { held }
}

// Writes as many settings as the run has room for, and gives their count; the first cells hold the rows that the sheet's other clauses
// bar. A loop beside generation's, which also widens each setting and asks whether there are more: neither is to be measured here.
fn settings(order: &[u32], on: &[u8], cells: &mut [Row], ons: usize, words: &mut [u32]) -> usize
    requires asked { Asked order.now (numbers_of on.now) [] (take ons cells.old) }
    requires ons_in_bounds { ons < length cells.old }
    ensures words_after { words.new ≡ over (pairs_of (generated order.now (asks on.now (take ons cells.old)) all (length words.old / 2))) words.old }
    ensures value { result ≡ length (generated order.now (asks on.now (take ons cells.old)) all (length words.old / 2)) }
{
    let inputs = Inputs {
        count: order.len() as u32,
    };
    let room = words.len() / 2;
    let mut last = Setting(0);
    let mut held = ons;
    for count in 0..room {
        let q = Question {
            order,
            swift: order,
            a: on,
            b: &[],
            rows: &cells[..held],
        };
        let Some(s) = find_from(&q, last) else {
            return count;
        };
        let row = Row::full(inputs, s);
        let at = place(ons, held, cells.len());
        cells[at] = row;
        held = at + 1;
        put(words, count, row);
        last = s;
    }
    room
}

// The clauses as the rows that they bar, which come first in the run. The cells are made here, behind the entry's tests: they are many.
#[tactic(auto, using(crate::proofs::Phases::behind_barred), unfolding(rules::specs::Calls::words_of))]
fn behind_barred(inputs: Inputs, order: &[u32], on: &[i32], words: &mut [u32]) -> usize
    requires order_value { is_order inputs.count order.now ≡ true }
    requires sheet_value { well_formed inputs.count on.now ≡ true }
    requires words_in_bounds { 2 * max_clauses ≤ length words.old }
    ensures value { result ≡ length (phase true (barred on.now) order.now on.now words.old) }
    ensures words_after { words.new ≡ phase_words true (barred on.now) order.now on.now words.old }
{
    let mut cells = [Row::dashes(); CELLS];
    let ons = bar(inputs, on, &mut cells);
    put_rows(&cells[..ons], words);
    settings(order, &[], &mut cells, ons, &mut words[2 * ons..])
}

// The clauses read where they lie.
#[tactic(auto, using(crate::proofs::Phases::in_place))]
fn in_place(order: &[u32], on: &[u8], words: &mut [u32]) -> usize
    requires { Asked order.now (numbers_of on.now) [] [] }
    ensures value { result ≡ length (phase true [] order.now (numbers_of on.now) words.old) }
    ensures words_after { words.new ≡ phase_words true [] order.now (numbers_of on.now) words.old }
{
    let mut cells = [Row::dashes(); CELLS];
    settings(order, on, &mut cells, 0, words)
}

#[unsafe(no_mangle)]
pub extern "C" fn bench_phase_rows(n: u32, order: &[u32], on: &[i32], rows: &mut [u32]) -> usize
    ensures value { result ≡ length (phase (rows_form n order.now on.now (length rows.old)) (barred on.now) order.now on.now rows.old) }
    ensures rows_after { rows.new ≡ phase_words (rows_form n order.now on.now (length rows.old)) (barred on.now) order.now on.now rows.old }
{
    let Ok(inputs) = Inputs::of(n) else {
        return 0;
    };
    if !is_order(n, order) || !well_formed(n, on) || rows.len() < 2 * Sheet::MAX_CLAUSES {
        return 0;
    }
    behind_barred(inputs, order, on, rows)
}

#[tactic(auto, using(crate::proofs::Phases::in_place))]
#[unsafe(no_mangle)]
pub extern "C" fn bench_phase_bytes(n: u32, order: &[u32], on: &[u8], rows: &mut [u32]) -> usize
    ensures value { result ≡ length (phase (bytes_form n order.now on.now) [] order.now (numbers_of on.now) rows.old) }
    ensures rows_after { rows.new ≡ phase_words (bytes_form n order.now on.now) [] order.now (numbers_of on.now) rows.old }
{
    if !Row::is_inputs(n) || !is_order(n, order) || !well_formed_bytes(n, on) {
        return 0;
    }
    in_place(order, on, rows)
}
