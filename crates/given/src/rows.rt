// The rows of two runs of words, one after the other: as many as the shorter run has words.
// By hand, since the type of a mapped `zip` cannot be named.
ghost use Rattle.std.specs.Iterator.{YieldsFirst, item_count};
ghost use Rattle.given.specs.Given.{rows_left};

use rules::Row;

#[derive(Clone, Copy)]
pub struct Rows<'a> {
    pub care: &'a [u32],
    pub value: &'a [u32],
}

impl<'a> Iterator for Rows<'a> {
    type Item = Row;

    ghost next_gives = { YieldsFirst rows_left };

    ghost remaining = { item_count rows_left };

    #[tactic(auto, using(crate::proofs::Runs::runs), unfolding(rules::specs::Calls::rows_in))]
    fn next(&mut self) -> Option<Row> {
        let (care, cares) = self.care.split_first()?;
        let (value, values) = self.value.split_first()?;
        self.care = cares;
        self.value = values;
        Some(Row {
            care: *care,
            value: *value,
        })
    }
}
