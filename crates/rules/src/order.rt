// The order in which variable 1 comes first.
ghost use Rattle.std.specs.Prelude.{◌≡◌, ◌≤◌, length};
ghost use Rattle.rules.specs.Words.{max_inputs, natural};

// Writes 1 up over the whole run.
pub fn natural_order(order: &mut [u32])
    requires { length order.old ≤ max_inputs }
    ensures { order.new ≡ natural (length order.old) }
{
    for (place, v) in order.iter_mut().enumerate() {
        *v = place as u32 + 1;
    }
}
