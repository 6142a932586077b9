// The refusals that look at the input's form, in the order of their numbers, for both list calls.
ghost use Rattle.std.specs.Prelude.{◌≡◌, IfOk};
ghost use Rattle.lists.specs.Formed.{InForm, form_of, formed_as};

use rules::{Inputs, Refusal};
use sheets::{is_order, well_formed};

// The number of inputs, or the refusal.
#[tactic(auto, unfolding(crate::specs::Formed::form_of, rules::specs::Answers::judge))]
pub fn form_of(n: u32, order: &[u32], on: &[i32], off: &[i32]) -> Result<Inputs, Refusal>
    ensures verdict { formed_as result ≡ form_of n order.now on.now off.now }
    ensures in_form { IfOk result (λ inputs. InForm inputs.count order.now on.now off.now) }
{
    let inputs = Inputs::of(n)?;
    if !is_order(n, order) {
        return Err(Refusal::Order);
    }
    if !well_formed(n, on) {
        return Err(Refusal::OnSheet);
    }
    if !well_formed(n, off) {
        return Err(Refusal::OffSheet);
    }
    Ok(inputs)
}
