// The line of a refusal.
ghost use Rattle.std.specs.Prelude.{◌≡◌};
ghost use Rattle.rules.specs.Answers.{refusal_reply};
ghost use Rattle.pla.specs.Written.{HasRoom, Writes};
ghost use Rattle.printing.specs.Results.{line_of, settings_part};

use pla::Writer;
use rules::{Inputs, Refusal};

// A refusal, and the inputs of the setting that it may return.
#[derive(Clone, Copy)]
pub struct Refused {
    pub inputs: Inputs,
    pub refusal: Refusal,
}

// Of a text, when no inputs are known yet: such a refusal returns no setting.
impl From<Refusal> for Refused {
    ghost from_gives = { λ f refused. (refused.inputs.count ≡ 0) × (refused.refusal ≡ f) };

    fn from(refusal: Refusal) -> Refused {
        Refused {
            inputs: Inputs { count: 0 },
            refusal,
        }
    }
}

impl Refused {
    #[tactic(auto, using(crate::proofs::Lines::lines))]
    pub fn put_line(self, writer: &mut Writer)
        requires { HasRoom writer.old (line_of self) }
        ensures { Writes writer.old (line_of self) writer.new }
    {
        writer.put_bytes(b"refused ");
        writer.put_digits(self.refusal.number() as usize);
        self.put_setting(writer);
        writer.put_bytes(b"\n");
    }

    // A space and the setting, variable 1 first, where the refusal returns one.
    #[tactic(auto, using(crate::proofs::Lines::lines))]
    fn put_setting(self, writer: &mut Writer)
        requires { HasRoom writer.old (settings_part self.inputs.count (refusal_reply self.refusal).values) }
        ensures { Writes writer.old (settings_part self.inputs.count (refusal_reply self.refusal).values) writer.new }
    {
        if let Refusal::Collision(s) = self.refusal {
            writer.put_bytes(b" ");
            writer.put_each(self.inputs, |v| if v.is_one(s.0) { b'1' } else { b'0' });
        }
    }
}
