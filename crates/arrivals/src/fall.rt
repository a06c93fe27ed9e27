// Arrivals from right before a position, where control goes on to it.
ghost use Rattle.std.specs.Prelude.{◌≡◌, cond, ◌-◌, ◌≤◌, eqb, ltb, length};
ghost use Rattle.arrivals.specs.Index.{falls_from, next_fall};

use crate::held;
use instruction::Mode;
use targets::Image;

fn falls(mode: Mode, image: &[u8], marks: &[u8], p: u32, q: u32) -> bool
    ensures { result ≡ falls_from mode image.now marks.now p q }
{
    held::had_targets(image, marks, q) && targets::falls_to(mode, image, q, p)
}

// Not further than three positions before this one.
fn window(end: u32, from: u32) -> u32
    ensures { result ≡ cond (ltb from (end - 3)) (end - 3) from }
{
    from.max(end.saturating_sub(3))
}

// The position that an instruction from which control goes on to p ends at: in wrapping mode the end of memory is its beginning.
fn end_before(image: &[u8], p: u32) -> u32
    requires { length image.now ≤ 65536 }
    ensures { result ≡ cond (eqb p 0) (length image.now) p }
{
    if p == 0 { image.len() as u32 } else { p }
}

// The lowest position, not below this one, from which control goes on to p; where there is none, a position outside every image.
pub fn next_fall(mode: Mode, image: &[u8], marks: &[u8], p: u32, from: u32) -> u32
    ensures { result ≡ next_fall mode image.now marks.now p from }
{
    if Image::LIMIT < image.len() {
        return Image::NOWHERE;
    }
    let end = end_before(image, p);
    (window(end, from)..end)
        .find(|q| falls(mode, image, marks, p, *q))
        .unwrap_or(Image::NOWHERE)
}
