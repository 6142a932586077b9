// The program around what is printed: two files in, one text out.
#![tactic(auto)]

ghost use Rattle.std.specs.Prelude.{◌≤◌, length, take, OnOk};
ghost use Rattle.std.specs.Io.KnownBytes.{Consumes};
ghost use Rattle.running.specs.Answered.{Answered, Ran, Wrote};

use rules::Text;
use std::fs::File;
use std::io;
use std::io::{Read, Write};
use std::rt::Files;

// One byte more than a text may have: a longer file is refused, not cut.
const ROOM: usize = Text::MAX_BYTES + 1;

// Reads until the run is full, or a read gives nothing or fails. Answers how many bytes it read, into the first of the run.
// By hand: of the library's reads of a whole file some want memory, and the others do not count what comes before an end or an error.
fn fill<R: Read>(from: &mut R, text: &mut [u8]) -> usize
    ensures within { result ≤ length text.new }
    ensures bytes { Consumes (R.remaining from.old) (R.remaining from.new) (take result text.new) }
{
    let mut done = 0;
    while let Ok(n @ 1..) = from.read(&mut text[done..]) {
        done += n;
    }
    done
}

// A name that is no UTF-8 opens no file.
fn open<R: Files>(rt: &R, name: &[u8]) -> Option<R::File> {
    let path = std::str::from_utf8(name).ok()?;
    File::open(rt, path).ok()
}

// The file's bytes, as many as the room holds; none where it cannot be opened or read.
fn load<'a, R: Files>(rt: &R, name: &[u8], room: &'a mut [u8]) -> &'a [u8]
    ensures { length result.now ≤ length room.old }
{
    let size = open(rt, name).map_or(0, |mut file| fill(&mut file, room));
    &room[..size]
}

// What the program prints for two files, in the first bytes of `out`, and its length. A pair of names would be made for the call alone.
pub fn answer<R: Files>(rt: &R, on_name: &[u8], off_name: &[u8], out: &mut [u8]) -> usize
    ensures { Answered result out.new out.old }
{
    let mut on = [0; ROOM];
    let mut off = [0; ROOM];
    printing::print(
        load(rt, on_name, &mut on),
        load(rt, off_name, &mut off),
        out,
    )
}

// Writes what the program prints for two files, and answers how many bytes that is, and whether they could be written.
#[tactic(auto, unfolding(printing::specs::Printed::printed, printing::specs::Printed::printed_size))]
fn print_to<R: Files, W: Write>(
    rt: &R,
    on_name: &[u8],
    off_name: &[u8],
    to: &mut W,
) -> (usize, io::Result<()>)
    ensures ran { Ran result.0 }
    ensures wrote { OnOk result.1 (Wrote result.0 (W.contents to.old) (W.contents to.new)) }
{
    let mut out = [0; printing::MAX_PRINTED];
    let size = answer(rt, on_name, off_name, &mut out);
    (size, to.write_all(&out[..size]))
}

// Prints the list of the two sheets, or the refusal. Answers how many bytes that is. Where they cannot be written, nothing tells.
pub fn run<R: Files + Print>(rt: &R, on_name: &[u8], off_name: &[u8]) -> usize
    ensures { Ran result }
{
    let (size, _written) = print_to(rt, on_name, off_name, &mut io::writer(rt));
    size
}
