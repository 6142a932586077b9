// A number of inputs that a call was given, once it has been looked at.
ghost use Rattle.std.specs.Prelude.{◌≡◌, ◌≤◌, IfErr, IfOk, is_ok};
ghost use Rattle.rules.specs.Words.{is_inputs, max_inputs};

use crate::{Refusal, Row};

// At most 24; no function below the calls asks that there is one.
#[derive(Clone, Copy)]
pub struct Inputs {
    pub count: u32,
    pub ghost few: { count ≤ max_inputs },
}

impl Inputs {
    // The number, or refusal 1 unless it is one of inputs.
    pub fn of(n: u32) -> Result<Inputs, Refusal>
        ensures given { IfOk result (λ inputs. inputs.count ≡ n) }
        ensures refused { IfErr result (λ f. f ≡ Refusal.Inputs) }
        ensures when { is_ok result ≡ is_inputs n }
    {
        if Row::is_inputs(n) {
            Ok(Inputs { count: n })
        } else {
            Err(Refusal::Inputs)
        }
    }
}
