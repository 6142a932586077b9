// The words of the trade: what a variable, a place, a setting, a row and a refusal are, and what every call answers.
// What the calls mean stands in specs/, and what was promised of it in proofs/.
#![tactic(auto)]

mod inputs;
mod order;

ghost use Rattle.std.specs.Prelude.{◌≡◌, ◌-◌, ◌^◌, ◌≤◌};
ghost use Rattle.rules.specs.Words.{max_inputs, is_inputs, fits, holds, is_one, is_row, full, at_zero, at_one, without, fixed_at};
ghost use Rattle.rules.specs.Answers.{refusal_reply};
ghost use Rattle.rules.specs.Calls.{first};

pub use inputs::Inputs;
pub use order::natural_order;

// A variable's number, 1 up. It may be any number, as a literal's may; what is asked of the variables of n inputs asks it in its clause.
#[derive(Clone, Copy, PartialEq, Eq)]
pub struct Var(pub u32);

impl Var {
    // The word with the variable's bit alone.
    pub fn bit(self) -> u32
        requires { (1 ≤ self.0) × (self.0 ≤ max_inputs) }
        ensures { result ≡ 2 ^ (self.0 - 1) }
    {
        1 << (self.0 - 1)
    }

    // The variable is 1 in the word.
    pub fn is_one(self, word: u32) -> bool
        requires { (1 ≤ self.0) × (self.0 ≤ max_inputs) }
        ensures { result ≡ is_one self.0 word }
    {
        (word >> (self.0 - 1)) % 2 == 1
    }
}

// A place in the order, 0 up. Which variable stands there is the order's affair.
#[derive(Clone, Copy, PartialEq, Eq)]
pub struct Place(pub usize);

// Bit i - 1 is variable i.
#[derive(Clone, Copy, PartialEq, Eq)]
pub struct Setting(pub u32);

impl Setting {
    // The setting has no bits from n up.
    pub fn fits(self, n: Inputs) -> bool
        ensures { result ≡ fits n.count self.0 }
    {
        self.0 < 1 << n.count
    }
}

// Fixes the variables of `care` to their bits of `value`, and leaves the others dashed.
#[derive(Clone, Copy, PartialEq, Eq)]
#[repr(C)]
pub struct Row {
    pub care: u32,
    pub value: u32,
}

impl Row {
    pub const MAX_INPUTS: u32 = 24;

    // n is a number of inputs.
    pub fn is_inputs(n: u32) -> bool
        ensures { result ≡ is_inputs n }
    {
        1 <= n && n <= Row::MAX_INPUTS
    }

    // A row of n inputs: no care bits from n up, and value ones only under care ones.
    pub fn is_row(self, n: Inputs) -> bool
        ensures { result ≡ is_row n.count self }
    {
        self.care < 1 << n.count && self.value & self.care == self.value
    }

    // The row agrees with the setting on the variables that it cares for.
    pub fn holds(self, s: Setting) -> bool
        ensures { result ≡ holds self s.0 }
    {
        s.0 & self.care == self.value
    }

    // The row without literals: it holds every setting.
    pub fn dashes() -> Row
        ensures { (result.care ≡ 0) × (result.value ≡ 0) }
    {
        Row { care: 0, value: 0 }
    }

    // The row of all n literals of a setting.
    pub fn full(n: Inputs, s: Setting) -> Row
        ensures { result ≡ full n.count s.0 }
    {
        Row {
            care: (1 << n.count) - 1,
            value: s.0,
        }
    }

    // The row with the variable fixed at 0.
    pub fn at_zero(self, v: Var) -> Row
        requires { (1 ≤ v.0) × (v.0 ≤ max_inputs) }
        ensures { result ≡ at_zero v.0 self }
    {
        Row {
            care: self.care | v.bit(),
            value: self.value,
        }
    }

    // The row with the variable fixed at 1.
    pub fn at_one(self, v: Var) -> Row
        requires { (1 ≤ v.0) × (v.0 ≤ max_inputs) }
        ensures { result ≡ at_one v.0 self }
    {
        let bit = v.bit();
        Row {
            care: self.care | bit,
            value: self.value | bit,
        }
    }

    // The row with the variable fixed at 1 or at 0.
    pub fn fixed_at(self, one: bool, v: Var) -> Row
        requires { (1 ≤ v.0) × (v.0 ≤ max_inputs) }
        ensures { result ≡ fixed_at one v.0 self }
    {
        if one { self.at_one(v) } else { self.at_zero(v) }
    }

    // The row without the literal of v.
    pub fn without(self, v: Var) -> Row
        requires { (1 ≤ v.0) × (v.0 ≤ max_inputs) }
        ensures { result ≡ without v.0 self }
    {
        let bit = v.bit();
        Row {
            care: self.care - (self.care & bit),
            value: self.value - (self.value & bit),
        }
    }
}

// A run of signed numbers; 0 closes a clause.
#[derive(Clone, Copy)]
pub struct Sheet;

impl Sheet {
    pub const MAX_NUMBERS: usize = 8192;

    pub const MAX_CLAUSES: usize = 1024;
}

// Rows in two runs of words, care and value.
#[derive(Clone, Copy)]
pub struct List;

impl List {
    pub const MAX_ROWS: usize = 256;
}

// A run of bytes to be read as a sheet.
#[derive(Clone, Copy)]
pub struct Text;

impl Text {
    pub const MAX_BYTES: usize = 32768;
}

// Why a call gives no result, in the order of the refusals' numbers.
#[derive(Clone, Copy, PartialEq, Eq)]
pub enum Refusal {
    Inputs,
    Order,
    OnSheet,
    OffSheet,
    Asked,
    Collision(Setting),
    TooManyRows,
    GivenList,
    GivenSetting,
    LongText,
    Header,
    Token,
    Clauses,
    OtherInputs,
    Room,
}

impl Refusal {
    pub fn number(self) -> u32
        ensures { result ≡ (refusal_reply self).number }
    {
        match self {
            Refusal::Inputs => 1,
            Refusal::Order => 2,
            Refusal::OnSheet => 3,
            Refusal::OffSheet => 4,
            Refusal::Asked => 5,
            Refusal::Collision(_) => 6,
            Refusal::TooManyRows => 7,
            Refusal::GivenList => 8,
            Refusal::GivenSetting => 9,
            Refusal::LongText => 10,
            Refusal::Header => 11,
            Refusal::Token => 12,
            Refusal::Clauses => 13,
            Refusal::OtherInputs => 14,
            Refusal::Room => 15,
        }
    }

    // The setting that refusal 6 returns; 0 for any other.
    pub fn payload(self) -> u32
        ensures { result ≡ first (refusal_reply self).values }
    {
        match self {
            Refusal::Collision(s) => s.0,
            _ => 0,
        }
    }
}

// The count of a whole list's rows, or the refusal.
pub type ListAnswer = Result<usize, Refusal>;

// The count of the rows given and whether generation has no more, or the refusal.
pub type PartialAnswer = Result<(usize, bool), Refusal>;

// The smallest setting asked for, or the refusal; finding none is an ordinary answer.
pub type QueryAnswer = Result<Option<Setting>, Refusal>;

// The count of a given list's rows that stay, or the refusal.
pub type PruneAnswer = Result<usize, Refusal>;

// A list's value at a setting, whether some row holds it, or the refusal.
pub type ValueAnswer = Result<bool, Refusal>;

// The inputs that a text's header names and the count of its numbers, or the refusal.
pub type ReadAnswer = Result<(u32, usize), Refusal>;

// The length of the text written, or the refusal.
pub type WriteAnswer = Result<usize, Refusal>;
