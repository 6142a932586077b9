// The list's rows are handed over in bytes: their care words in one run, their value words in another.
ghost use Rattle.std.specs.Prelude.{◌≡◌, ◌/◌, ◌≤◌, length};
ghost use Rattle.rules.specs.Answers.{over};
ghost use Rattle.rules.specs.Calls.{bytes_of, cares, values};
ghost use Rattle.method.specs.Blank.{solid};
ghost use Rattle.host.specs.Bytes.{none-written, room-left};

use method::cells::Cells;
use method::solid::hand_over;
use rules::Row;

// A run of bytes, four to a word.
#[derive(Drop)]
pub struct Bytes<'a> {
    pub run: &'a mut [u8],
}

impl Cells for Bytes<'_> {
    ghost name = { λ bytes. bytes.run.ghost_name };

    ghost now = { λ bytes. bytes.run.now };

    ghost room = { λ run. length run / 4 };

    ghost with = { λ words run. over (bytes_of words) run };

    fn put(&mut self, k: usize, word: u32) {
        self.run[4 * k..4 * k + 4].copy_from_slice(&word.to_le_bytes());
    }

    ghost none = { none-written };

    ghost size = { room-left };
}

// Copies the rows that are no blanks, in order, to the first bytes of the two runs, and gives their count.
pub fn copy_bytes(rows: &[Row], care: &mut [u8], value: &mut [u8]) -> usize
    requires care_has_room { length (solid rows.now) ≤ length care.old / 4 }
    requires value_has_room { length (solid rows.now) ≤ length value.old / 4 }
    ensures care_after { care.new ≡ over (bytes_of (cares (solid rows.now))) care.old }
    ensures value_after { value.new ≡ over (bytes_of (values (solid rows.now))) value.old }
    ensures value { result ≡ length (solid rows.now) }
{
    hand_over(rows, &mut Bytes { run: care }, &mut Bytes { run: value })
}
