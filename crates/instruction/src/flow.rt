// Where control goes after an instruction.
// Ported from `targets` of src/disasm.rs of wtetzner/waterbear, and changed: its 70 arms are four kinds, by the order of the forms.
ghost use Rattle.std.specs.Prelude.{◌≡◌, ◌<◌};
ghost use Rattle.instruction.specs.Flow.{flow_of};
ghost use Rattle.instruction.specs.Parts.{parts_of};

use crate::instr::Instr;

#[derive(Clone, Copy)]
pub enum Flow {
    // Ret, Reti: no target.
    Stop,
    // The instruction after it alone.
    Next,
    // Br, Brf, Jmp, Jmpf: the target alone.
    Jump,
    // A conditional branch or a call: the target, then the instruction after it.
    Branch,
}

fn flow_of(form: u8) -> Flow
    requires { form < 70 }
    ensures { result ≡ flow_of form }
{
    match form {
        0..=41 => Flow::Next,
        42..=45 => Flow::Jump,
        46..=61 => Flow::Branch,
        62..=63 => Flow::Stop,
        _ => Flow::Next,
    }
}

impl Instr {
    #[tactic(auto, using(crate::proofs::Known::form_small))]
    pub fn flow(self) -> Flow
        ensures { result ≡ flow_of (parts_of self).form }
    {
        flow_of(self.apart().form)
    }
}
