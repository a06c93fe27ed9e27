// The byte mask: which bytes are code.
// Ported from `build_byte_mask` of src/disasm.rs of wtetzner/waterbear, and changed: one pass upward, which keeps where the code so far ends.
ghost use Rattle.std.specs.Prelude.{◌≡◌, ◌++◌, ◌≤◌, length, drop};
ghost use Rattle.views.specs.View.{viewed_of};
ghost use Rattle.views.specs.Mask.{mask_of, end_with, mask_answer, mask_room};

use crate::view::ViewError;
use crate::{traced, view};

// Where the code that begins up to p ends, if that before p ends there.
pub fn end_with(image: &[u8], marks: &[u8], p: u32, end: usize) -> usize
    ensures { result ≡ end_with image.now marks.now p end }
{
    if traced::is_traced_at(image, marks, p as usize) {
        return end.max(p as usize + targets::size_at(image, p) as usize);
    }
    end
}

fn write_mask(image: &[u8], marks: &[u8], mask: &mut [u8])
    requires { (length image.now ≤ length marks.now) × (length image.now ≤ 65536) × (length image.now ≤ length mask.old) }
    ensures { mask.new ≡ mask_of image.now marks.now ++ drop (length image.now) mask.old }
{
    let mut end = 0;
    for p in 0..image.len() {
        end = end_with(image, marks, p as u32, end);
        mask[p] = (p < end) as u8;
    }
}

// 1 on each byte of a traced instruction, else 0.
pub fn build_byte_mask(image: &[u8], marks: &[u8], mask: &mut [u8]) -> Result<usize, ViewError>
    ensures result_value { viewed_of result ≡ mask_answer image.now marks.now mask.old }
    ensures mask_after { mask.new ≡ mask_room image.now marks.now mask.old }
{
    let n = image.len();
    view::check_room(image, marks, mask.len(), n)?;
    write_mask(image, marks, mask);
    Ok(n)
}
