// A literal is a signed number, any of 32 bits: its size is the variable, and its sign says at which value of that it is true. That the
// variable is 1 to 24 is asked of each use: a type that keeps it would ask the same of the readers, who know it of the whole sheet.
ghost use Rattle.std.specs.Prelude.{◌≡◌, ◌≤◌};
ghost use Rattle.rules.specs.Words.{max_inputs};
ghost use Rattle.rules.specs.Sheets.{variable, positive, is_true};

use rules::{Setting, Var};

// The variable of the literal.
pub fn variable(literal: i32) -> Var
    ensures { result.0 ≡ variable literal }
{
    Var(literal.unsigned_abs())
}

// Whether the literal stands for its variable at 1.
pub fn positive(literal: i32) -> bool
    ensures { result ≡ positive literal }
{
    literal >= 0
}

// The literal is true at the setting.
pub fn is_true(literal: i32, s: Setting) -> bool
    requires { (1 ≤ variable literal) × (variable literal ≤ max_inputs) }
    ensures { result ≡ is_true s.0 literal }
{
    variable(literal).is_one(s.0) == positive(literal)
}
