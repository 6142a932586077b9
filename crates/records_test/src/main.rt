// Lists of records: what the call answers, and the marks after it.
#![tactic(auto)]

ghost use Rattle.std.specs.Prelude.{◌≤◌, length};

use records::{Cube, pruned_array};
use rules::PruneAnswer;
use std::{array, io};

fn cube(care: u32, value: u32, dropped: bool) -> Cube {
    Cube {
        care,
        value,
        dropped,
    }
}

// The cubes, and 9/9 marked behind them.
fn first(cubes: &[Cube]) -> [Cube; 256]
    requires { length cubes.now ≤ 256 }
{
    let mut all = [cube(9, 9, true); 256];
    all[..cubes.len()].copy_from_slice(cubes);
    all
}

// The 256 settings of eight inputs, each a row of its own.
fn settings() -> [Cube; 256] {
    array::from_fn(|i| cube(255, i as u32, true))
}

// The call on the records: its answer, and the first seven records after it.
fn show(out: &impl Print, n: u32, records: [Cube; 256], count: usize) -> io::Result<()> {
    let pruned = pruned_array(n, records, count);
    answer(out, pruned.answer)?;
    for after in &pruned.records[..7] {
        record(out, *after)?;
    }
    println!(out; "")
}

fn answer(out: &impl Print, a: PruneAnswer) -> io::Result<()> {
    match a {
        Ok(count) => print!(out; "kept {count}:"),
        Err(refusal) => print!(out; "refused {}:", refusal.number()),
    }
}

// Care, value, and x for dropped.
fn record(out: &impl Print, c: Cube) -> io::Result<()> {
    let mark = if c.dropped { "x" } else { "" };
    print!(out; " {}/{}{mark}", c.care, c.value)
}

fn main(rt: HostRuntime) -> io::Result<()> {
    // no rows: nothing is looked at, nothing is marked
    show(&rt, 3, first(&[]), 0)?;
    // -00, 0-0, 10-: the first goes
    let mut a = first(&[cube(6, 0, false), cube(5, 0, true), cube(3, 1, true)]);
    show(&rt, 3, a, 3)?;
    // of the first two alone none goes, and marks set before do not matter
    show(&rt, 3, a, 2)?;
    // of equal rows the first goes
    show(&rt, 2, first(&[cube(3, 1, true), cube(3, 1, true)]), 2)?;
    // 0, 1 and -: each of the first two lies in the third, which stays; the other way round the first goes
    let b = first(&[cube(1, 0, false), cube(1, 1, false), cube(0, 0, true)]);
    show(&rt, 1, b, 3)?;
    let b = first(&[cube(0, 0, false), cube(1, 0, true), cube(1, 1, true)]);
    show(&rt, 1, b, 3)?;
    // -01, -10, 0-1, 1-0, 01-, 10-: each lies in the others together
    let d = first(&[
        cube(6, 4, true),
        cube(6, 2, true),
        cube(5, 4, true),
        cube(5, 1, true),
        cube(3, 2, true),
        cube(3, 1, true),
    ]);
    show(&rt, 3, d, 6)?;
    // every refusal leaves the marks that were set before
    show(&rt, 0, a, 3)?;
    show(&rt, 25, a, 3)?;
    show(&rt, 3, a, 4)?;
    show(&rt, 2, a, 3)?;
    show(&rt, 3, a, 257)?;
    show(&rt, 0, a, 257)?;
    a[1] = cube(5, 2, true);
    show(&rt, 3, a, 3)?;
    // 256 records: equal ones, and the settings of eight inputs
    show(&rt, 24, [cube(0, 0, true); 256], 256)?;
    show(&rt, 8, settings(), 256)
}
