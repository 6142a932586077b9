// Where the words of rows go: a lent run, in whose cells they are written one after another.
ghost use Rattle.std.specs.Prelude.{◌≡◌, ℕ, List, [], ◌∷◌, ◌++◌, ◌≤◌, ◌<◌, length, refl};
ghost use Rattle.rules.specs.Answers.{over};
ghost use Rattle.sheets.proofs.Over.{over-length};

pub trait Cells {
    // By which reference the run is lent, and what stands in it.
    ghost name: { Self → ℕ };

    ghost now: { Self → List ℕ };

    // For how many words a run has room, and what stands in it with words over its first cells.
    ghost room: { List ℕ → ℕ };

    ghost with: { List ℕ → List ℕ → List ℕ };

    // Writes the word behind the first k.
    fn put(&mut self, k: usize, word: u32)
        requires { k < room (now self.old) }
        ensures same { name self.new ≡ name self.old }
        ensures written { (words run : List ℕ) → length words ≡ k → now self.old ≡ with words run → now self.new ≡ with (words ++ (word ∷ [])) run };

    // Without words a run is as it was; a run keeps its room.
    ghost none: { (run : List ℕ) → with [] run ≡ run };

    ghost size: { (words run : List ℕ) → length words ≤ room run → room (with words run) ≡ room run };
}

// A run of words.
#[derive(Drop)]
pub struct Words<'a> {
    pub run: &'a mut [u32],
}

impl Cells for Words<'_> {
    ghost name = { λ words. words.run.ghost_name };

    ghost now = { λ words. words.run.now };

    ghost room = { λ run. length run };

    ghost with = { over };

    fn put(&mut self, k: usize, word: u32) {
        self.run[k] = word;
    }

    ghost none = { λ run. refl };

    ghost size = { λ words run. over-length words run };
}
