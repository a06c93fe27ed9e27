// Bytes to an instruction.
// Ported from `Instr::decode` and `decode_from_raw` of src/instruction.rs of wtetzner/waterbear, and changed: the derived `decode_raw` is
// a lookup by the first byte, and the fields are read by the form's shape.
ghost use Rattle.std.specs.Prelude.{◌≡◌};
ghost use Rattle.instruction.specs.Decode.{decoded_of, decode_answer, decoded_parts_of, parts_answer};

use crate::answer::CutOff;
use crate::instr::{Instr, Parts};
use crate::{build, first, form, read};

// Why bytes are no instruction.
#[derive(Clone, Copy, Debug, PartialEq, Eq)]
pub enum DecodeError {
    // 12: no byte.
    Nothing,
    // 5: fewer bytes than the form has.
    Cut(CutOff),
}

impl Parts {
    // The same as `Instr::decode`, for callers that would take the instruction apart again.
    pub fn decode(bytes: &[u8]) -> Result<Parts, DecodeError>
        ensures { decoded_parts_of result ≡ parts_answer bytes.now }
    {
        if bytes.is_empty() {
            return Err(DecodeError::Nothing);
        }
        let first = bytes[0];
        let size = first::size_by(first) as usize;
        if bytes.len() < size {
            let missing = (size - bytes.len()) as u8;
            return Err(DecodeError::Cut(CutOff {
                position: 0,
                first,
                missing,
            }));
        }
        let form = form::lookup(first);
        let f = read::read(form::shape_by(first), bytes);
        Ok(Parts::new(form, f.a, f.b, f.c))
    }
}

impl Instr {
    pub fn decode(bytes: &[u8]) -> Result<Instr, DecodeError>
        ensures { decoded_of result ≡ decode_answer bytes.now }
    {
        Ok(build::build(Parts::decode(bytes)?))
    }
}
