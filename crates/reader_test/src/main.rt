// Texts read through a reader: each token and the position behind it, then that none is left, again and again.
#![tactic(auto)]

use dimacs::{Step, Token};
use std::io;

// The first steps from a position on, over the inputs 1..v.
fn show(out: &impl Print, v: u32, text: &[u8], position: usize, steps: usize) -> io::Result<()> {
    print!(out; "from {position}:")?;
    for k in 0..steps {
        tell(out, reader::token_after(v, text, position, k))?;
    }
    println!(out; "")
}

fn tell(out: &impl Print, step: Step) -> io::Result<()> {
    match step {
        Some((Token::Number(z), place)) => print!(out; " {z}@{place}"),
        Some((Token::Percent, place)) => print!(out; " %@{place}"),
        Some((Token::Other, place)) => print!(out; " other@{place}"),
        None => print!(out; " none"),
    }
}

fn main(rt: HostRuntime) -> io::Result<()> {
    // blanks of every kind part the tokens, and some stand before the first and behind the last
    show(&rt, 3, b" 1 -2\t0\r\n3  0 \n", 0, 8)?;
    // from positions within a text: at a token, within one, in a blank, at the end and past it
    show(&rt, 24, b"12 -24 0", 0, 4)?;
    show(&rt, 24, b"12 -24 0", 1, 4)?;
    show(&rt, 24, b"12 -24 0", 2, 4)?;
    show(&rt, 24, b"12 -24 0", 8, 2)?;
    show(&rt, 24, b"12 -24 0", 9, 2)?;
    // `%` is a token like another here, and what is not in form is
    show(&rt, 3, b"1 % 4 -0 +1 01 2x", 0, 8)?;
    // no token
    show(&rt, 3, b"", 0, 2)?;
    show(&rt, 3, b" \t\r\n", 0, 2)
}
