// The sizes of an image and of its marks, which every call over both judges first.
ghost use Rattle.std.specs.Prelude.{◌≡◌, ◌≤◌, length, OnOk};
ghost use Rattle.instruction.specs.Answer.{judge};
ghost use Rattle.marks.specs.Refusals.{size_refusals, sized_of};

use targets::Image;

#[derive(Clone, Copy, Debug, PartialEq, Eq)]
pub enum SizeError {
    // 1: the image's length.
    LongImage(usize),
    // 2: the marks' length.
    ShortMarks(usize),
}

// The image is no longer than memory, and there is a mark for each of its bytes.
pub fn check_sizes(image: &[u8], marks: &[u8]) -> Result<(), SizeError>
    ensures answer { sized_of result ≡ judge (size_refusals image.now marks.now) tt }
    ensures right { OnOk result ((length image.now ≤ 65536) × (length image.now ≤ length marks.now)) }
{
    let n = image.len();
    if Image::LIMIT < n {
        return Err(SizeError::LongImage(n));
    }
    if marks.len() < n {
        return Err(SizeError::ShortMarks(marks.len()));
    }
    Ok(())
}
