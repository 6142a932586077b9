// P5's list in rooms of several lengths, and the longest text.
#![tactic(auto)]

use rules::WriteAnswer;
use std::io;

// What the call answers, and all of the room after it.
fn show(
    out: &impl Print,
    n: u32,
    count: usize,
    care: &[u32],
    value: &[u32],
    room: &mut [u8],
) -> io::Result<()> {
    answer(out, pla::write(n, count, care, value, room))?;
    out.write_all(room)?;
    out.write_all(b"\n")
}

fn answer(out: &impl Print, a: WriteAnswer) -> io::Result<()> {
    match a {
        Ok(size) => println!(out; "length {size}"),
        Err(refusal) => println!(out; "refused {}", refusal.number()),
    }
}

fn main(rt: HostRuntime) -> io::Result<()> {
    let care = [5, 3];
    let value = [0, 1];
    let mut fits = [b'#'; 30];
    show(&rt, 3, 2, &care, &value, &mut fits)?;
    let mut more = [b'#'; 34];
    show(&rt, 3, 2, &care, &value, &mut more)?;
    let mut less = [b'#'; 29];
    show(&rt, 3, 2, &care, &value, &mut less)?;
    show(&rt, 0, 3, &care, &value, &mut less)?;
    show(&rt, 3, 3, &care, &value, &mut less)?;
    longest(&rt)
}

// The longest text: 24 inputs and 256 rows.
fn longest(out: &impl Print) -> io::Result<()> {
    let care = [16777215; 256];
    let value = [0; 256];
    let mut room = [0; 6933];
    answer(out, pla::write(24, 256, &care, &value, &mut room))?;
    let mut less = [0; 6932];
    answer(out, pla::write(24, 256, &care, &value, &mut less))
}
