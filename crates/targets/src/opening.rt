// What the first byte at a position says: where its instruction ends, if it is not cut off, and where control goes from it.
ghost use Rattle.std.specs.Prelude.{◌≡◌};
ghost use Rattle.targets.specs.Opening.{opening_of};

use crate::image::Image;
use crate::not_whole::NotWhole;
use instruction::{CutOff, FirstByte, Flow};

#[derive(Clone, Copy)]
pub struct Opening {
    // Where the instruction ends.
    pub next: u32,
    pub flow: Flow,
}

pub fn opening_at(image: &[u8], p: u32) -> Result<Opening, NotWhole>
    ensures { result ≡ opening_of image.now p }
{
    let n = image.len();
    let at = p as usize;
    if Image::LIMIT < n || n <= at {
        return Err(NotWhole::Outside);
    }
    let first = image[at];
    let says = FirstByte::read(first);
    let next = p + says.size;
    let end = next as usize;
    if n < end {
        let missing = (end - n) as u8;
        return Err(NotWhole::Cut(CutOff {
            position: p,
            first,
            missing,
        }));
    }
    Ok(Opening {
        next,
        flow: says.flow,
    })
}
