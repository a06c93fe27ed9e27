// An instruction of plain numbers, and a base, to one of fields.
// Ported from `Instr::eval`, `rel8`, `rel16` and `eval12` of src/instruction.rs of wtetzner/waterbear, and changed: numbers for expressions.
ghost use Rattle.std.specs.Prelude.{◌≡◌};
ghost use Rattle.instruction.specs.Resolve.{resolved_of, resolve_answer};

use crate::instr::{Instr, Parts};
use crate::mode::Mode;
use crate::resolve_operand::ResolveError;
use crate::{build, resolve_operand};

impl Instr {
    // The instruction whose operands are numbers as written, with fields in their place.
    pub fn resolve(self, mode: Mode, base: u32) -> Result<Instr, ResolveError>
        ensures { resolved_of result ≡ resolve_answer mode self base }
    {
        let v = self.apart();
        let k = self.kinds();
        let f = resolve_operand::resolve(mode, k, v, base)?;
        Ok(build::build(Parts::new(v.form, f.a, f.b, f.c)))
    }
}
