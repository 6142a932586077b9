// The calls on texts: the reader, its token step, and what the program prints.
ghost use Rattle.std.specs.Prelude.{◌≡◌, length};
ghost use Rattle.rules.specs.Answers.{reply_of, after};
ghost use Rattle.rules.specs.Calls.{Read, read, read_values};
ghost use Rattle.rules.specs.Dimacs.{step};
ghost use Rattle.rules.specs.Program.{output};
ghost use Rattle.printing.specs.Printed.{printed, printed_size};
ghost use Rattle.probe.specs.Packed.{packed_counts, packed_step};

use crate::pack::{read_reply, step_reply};
use dimacs::next_token;

#[unsafe(no_mangle)]
pub extern "C" fn probe_read(text: &[u8], numbers: &mut [i32]) -> u64
    ensures value { result ≡ packed_counts (reply_of read_values (read text.now (length numbers.old))) }
    ensures numbers_after { numbers.new ≡ after (λ (x : Read). x.numbers) (read text.now (length numbers.old)) numbers.old }
{
    read_reply(dimacs::read(text, numbers))
}

#[unsafe(no_mangle)]
pub extern "C" fn probe_token(v: u32, text: &[u8], at: usize) -> u64
    ensures { result ≡ packed_step (step v text.now at) }
{
    step_reply(next_token(v, text, at))
}

// The length of what is printed, or 0 where there is no room for the longest output.
#[unsafe(no_mangle)]
pub extern "C" fn probe_output(on: &[u8], off: &[u8], out: &mut [u8]) -> u64
    ensures value { result ≡ printed_size (output on.now off.now) (length out.old) }
    ensures out_after { out.new ≡ printed (output on.now off.now) out.old }
{
    printing::print(on, off, out) as u64
}
