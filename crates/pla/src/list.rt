// The text of a list: the lines above the rows, a line for each row, and the last.
ghost use Rattle.std.specs.Prelude.{[], ◌∷◌, ◌≡◌, ◌≤◌};
ghost use Rattle.rules.specs.Words.{max_inputs};
ghost use Rattle.rules.specs.Pla.{row_chars, row_lines, text_of};
ghost use Rattle.given.specs.Given.{rows_of};
ghost use Rattle.pla.specs.Head.{head_of};
ghost use Rattle.pla.specs.Written.{HasRoom, Writes};

use crate::writer::Writer;
use given::Given;
use rules::{Inputs, Row, Var};

impl Writer<'_> {
    #[tactic(auto, using(crate::proofs::Positions::positions, crate::proofs::Parts::sizes))]
    pub(crate) fn put_list(&mut self, list: Given)
        requires { HasRoom self.old (text_of list.inputs.count (rows_of list)) }
        ensures { Writes self.old (text_of list.entry.inputs.count (rows_of list.entry)) self.new }
    {
        self.put_head(list.inputs, list.count());
        self.put_rows(list);
        self.put_bytes(b".e\n");
    }

    #[tactic(auto, using(crate::proofs::Positions::positions))]
    fn put_head(&mut self, n: Inputs, count: usize)
        requires { HasRoom self.old (head_of n.count count) }
        ensures { Writes self.old (head_of n.count count) self.new }
    {
        self.put_bytes(b".i ");
        self.put_digits(n.count as usize);
        self.put_bytes(b"\n.o 1\n.p ");
        self.put_digits(count);
        self.put_bytes(b"\n");
    }

    #[tactic(auto, using(crate::proofs::Positions::positions, crate::proofs::Parts::sizes))]
    fn put_rows(&mut self, list: Given)
        requires { HasRoom self.old (row_lines list.inputs.count (rows_of list)) }
        ensures { Writes self.old (row_lines list.entry.inputs.count (rows_of list.entry)) self.new }
    {
        for row in list.rows() {
            self.put_row(list.inputs, row);
        }
    }

    #[tactic(auto, using(crate::proofs::Positions::positions, crate::proofs::Parts::sizes))]
    fn put_row(&mut self, n: Inputs, row: Row)
        requires { HasRoom self.old (row_lines n.count (row ∷ [])) }
        ensures { Writes self.old (row_lines n.count (row ∷ [])) self.new }
    {
        self.put_each(n, |v| row_char(row, v));
        self.put_bytes(b" 1\n");
    }
}

// A dash where the row leaves the variable out, else its value.
#[tactic(auto, unfolding(rules::specs::Pla::row_chars))]
fn row_char(row: Row, v: Var) -> u8
    requires { (1 ≤ v.0) × (v.0 ≤ max_inputs) }
    ensures { result ∷ [] ≡ row_chars v.0 1 row }
{
    match (v.is_one(row.care), v.is_one(row.value)) {
        (false, _) => b'-',
        (true, false) => b'0',
        (true, true) => b'1',
    }
}
