// What the program prints for two texts.
#![tactic(auto)]

mod line;
mod list;
mod sheet;

ghost use Rattle.std.specs.Prelude.{◌≡◌, ◌≤◌, length};
ghost use Rattle.rules.specs.Program.{output};
ghost use Rattle.printing.specs.Printed.{max_printed, printed, printed_size};
ghost use Rattle.printing.specs.Results.{Prints, line_of};

use line::Refused;
use list::put_list;
use pla::Writer;
use rules::{Refusal, Sheet};
use sheet::read_sheet;

// The longest text that is printed: 24 inputs and 256 rows.
pub const MAX_PRINTED: usize = 6933;

// The program's output for the two texts in the first bytes of `out`, and its length. Without room for the longest output
// nothing is written, and the length is 0.
#[tactic(auto, using(pla::proofs::Positions::positions), unfolding(crate::specs::Printed::printed, crate::specs::Printed::printed_size))]
pub fn print(on: &[u8], off: &[u8], out: &mut [u8]) -> usize
    ensures value { result ≡ printed_size (output on.now off.now) (length out.old) }
    ensures out_after { out.new ≡ printed (output on.now off.now) out.old }
{
    if out.len() < MAX_PRINTED {
        return 0;
    }
    match print_list(on, off, out) {
        Ok(size) => size,
        Err(refused) => {
            let mut writer = Writer::new(out);
            refused.put_line(&mut writer);
            writer.at
        }
    }
}

// The list of both sheets, or the first refusal: each text is checked in full, and then whether both name the same inputs.
#[tactic(auto, using(std::proofs::lemmas::Bool::Decides::nat_tests), unfolding(rules::specs::Program::output, rules::specs::Answers::judge))]
fn print_list(on: &[u8], off: &[u8], out: &mut [u8]) -> Result<usize, Refused>
    requires { max_printed ≤ length out.old }
    ensures { Prints line_of (output on.now off.now) out.old result out.new }
{
    let mut on_numbers = [0; Sheet::MAX_NUMBERS];
    let on = read_sheet(on, &mut on_numbers)?;
    let mut off_numbers = [0; Sheet::MAX_NUMBERS];
    let off = read_sheet(off, &mut off_numbers)?;
    if on.inputs.count != off.inputs.count {
        return Err(Refused::from(Refusal::OtherInputs));
    }
    put_list(on, off, out).map_err(|refusal| Refused {
        inputs: on.inputs,
        refusal,
    })
}
