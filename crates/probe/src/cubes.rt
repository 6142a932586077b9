// Pruning of 256 cube records. C lends them in three runs of words, where a mark may be any word.
ghost use Rattle.std.specs.Prelude.{[], ◌∷◌, ◌≡◌, length};
ghost use Rattle.rules.specs.Answers.{after, reply_of};
ghost use Rattle.rules.specs.Calls.{kept, prune, rows_in};
ghost use Rattle.probe.specs.Packed.{packed_counts};
ghost use Rattle.probe.specs.Cubes.{cares_of, cubes_in, gone_marks, marks_of, set_marks, values_of};

use crate::pack::count_reply;
use records::{Cube, Pruned, pruned_array};

// A mark is set unless it is 0.
fn cubes_in(care: [u32; 256], value: [u32; 256], marks: [u32; 256]) -> [Cube; 256]
    ensures value { result ≡ cubes_in care value marks }
    ensures sizes { (length care ≡ 256) × ((length value ≡ 256) × (length marks ≡ 256)) }
{
    let mut records = [Cube {
        care: 0,
        value: 0,
        dropped: false,
    }; 256];
    // By index: nothing is known of the cells that are written by a `zip` over `iter_mut`.
    for (i, cube) in records.iter_mut().enumerate() {
        *cube = Cube {
            care: care[i],
            value: value[i],
            dropped: marks[i] != 0,
        };
    }
    records
}

fn put_back(
    records: [Cube; 256],
    care: &mut [u32; 256],
    value: &mut [u32; 256],
    dropped: &mut [u32; 256],
)
    ensures care_after { care.new ≡ cares_of records }
    ensures value_after { value.new ≡ values_of records }
    ensures dropped_after { dropped.new ≡ marks_of records }
{
    // By index, since it is three runs that are written.
    for (i, cube) in records.iter().enumerate() {
        care[i] = cube.care;
        value[i] = cube.value;
        dropped[i] = u32::from(cube.dropped);
    }
}

// The records are built, pruned and written back whole; every mark comes back as 0 or 1.
#[unsafe(no_mangle)]
pub extern "C" fn probe_prune(
    n: u32,
    count: usize,
    care: &mut [u32; 256],
    value: &mut [u32; 256],
    dropped: &mut [u32; 256],
) -> u64
    ensures value { result ≡ packed_counts (reply_of (λ m. kept m ∷ []) (prune n count (rows_in care.old value.old))) }
    ensures care_unchanged { care.new ≡ care.old }
    ensures value_unchanged { value.new ≡ value.old }
    ensures dropped_after { dropped.new ≡ after gone_marks (prune n count (rows_in care.old value.old)) (set_marks dropped.old) }
{
    let Pruned { answer, records } = pruned_array(n, cubes_in(*care, *value, *dropped), count);
    put_back(records, care, value, dropped);
    count_reply(answer)
}
