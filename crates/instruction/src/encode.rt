// An instruction to bytes.
// Ported from the derived `encode` of src/instruction.rs of wtetzner/waterbear, and changed: every field is checked against its range.
ghost use Rattle.std.specs.Prelude.{◌≡◌};
ghost use Rattle.instruction.specs.declared.encode.EncodeError.TheVariants.{Unfit};
ghost use Rattle.instruction.specs.Encode.{fit_of, fit_answer, encoded_of, encode_answer, encode_room};

use crate::answer::Misfit;
use crate::instr::Instr;
use crate::{form, write};

// Why an instruction is not written.
#[derive(Clone, Copy, Debug, PartialEq, Eq)]
pub enum EncodeError {
    // 7: a field out of its range.
    Unfit(Misfit),
    // 11: the number of bytes needed.
    NoRoom(usize),
}

impl From<Misfit> for EncodeError {
    ghost from_gives = { λ m e. e ≡ Unfit m };

    fn from(m: Misfit) -> EncodeError {
        EncodeError::Unfit(m)
    }
}

impl Instr {
    // Whether every field is in its range, those of the short offset -128 to 127, and so on; the first that is not.
    pub fn fit(self) -> Result<(), Misfit>
        ensures { fit_of result ≡ fit_answer self }
    {
        let v = self.apart();
        let k = self.kinds();
        k.a.held(1, v.a)?;
        k.b.held(2, v.b)?;
        k.c.held(3, v.c)?;
        Ok(())
    }

    // The number of bytes written.
    pub fn encode(self, out: &mut [u8]) -> Result<usize, EncodeError>
        ensures result_value { encoded_of result ≡ encode_answer self out.old }
        ensures out_after { out.new ≡ encode_room self out.old }
    {
        self.fit()?;
        let v = self.apart();
        let shape = form::shape_of(v.form);
        write::write(out, shape, form::fixed_of(v.form), v)
    }
}
