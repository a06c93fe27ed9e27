// What stands at a position of an image.
ghost use Rattle.std.specs.Prelude.{◌≡◌};
ghost use Rattle.targets.specs.At.{size_here};
ghost use Rattle.targets.specs.Here.{here_of};

use crate::not_whole::NotWhole;
use instruction::{CutOff, DecodeError, Instr, first};

// The size of the form that the byte at p has; past the end that of byte 0.
pub fn size_at(image: &[u8], p: u32) -> u32
    ensures { result ≡ size_here image.now p }
{
    let at = p as usize;
    if image.len() <= at {
        return 1;
    }
    first::size_by(image[at])
}

pub fn instr_at(image: &[u8], p: u32) -> Result<Instr, NotWhole>
    ensures { result ≡ here_of image.now p }
{
    let at = p as usize;
    if image.len() <= at {
        return Err(NotWhole::Outside);
    }
    match Instr::decode(&image[at..]) {
        Ok(i) => Ok(i),
        Err(DecodeError::Cut(c)) => Err(NotWhole::Cut(CutOff {
            position: p,
            first: c.first,
            missing: c.missing,
        })),
        Err(DecodeError::Nothing) => Err(NotWhole::Outside),
    }
}
