// What a search is asked: for the smallest setting that satisfies both sheets and lies in none of the rows.
ghost use Rattle.std.specs.Prelude.{◌≡◌, true, length};
ghost use Rattle.rules.specs.Words.{is_order};
ghost use Rattle.sheets.specs.Numbers.{numbers_of};
ghost use Rattle.search.specs.Question.{Asked};

use rules::Row;

// Settings are compared by the order; whether there is one is asked in the swift order of the same variables.
#[derive(Clone, Copy)]
pub struct Question<'a> {
    pub order: &'a [u32],
    pub swift: &'a [u32],
    pub a: &'a [u8],
    pub b: &'a [u8],
    pub rows: &'a [Row],
    pub ghost asked: { Asked order.now (numbers_of a.now) (numbers_of b.now) rows.now },
    pub ghost same: { is_order (length order.now) swift.now ≡ true },
}
