// The data run by the marks: no mask is lent.
ghost use Rattle.std.specs.Prelude.{◌≡◌, ◌+◌, ◌<◌, ◌≤◌, length};
ghost use Rattle.views.specs.Unmasked.{is_untraced, untraced_length, unmasked_run};

use crate::data::DataRun;
use crate::traced;

fn is_untraced(image: &[u8], marks: &[u8], b: usize) -> bool
    ensures { result ≡ is_untraced image.now marks.now b }
{
    b < image.len() && !traced::is_traced_at(image, marks, b)
}

// How many bytes stand before the next traced position, up to the longest run.
fn untraced_length(image: &[u8], marks: &[u8], at: usize) -> usize
    requires { at < length image.now }
    ensures { (result ≡ untraced_length image.now marks.now at) × (at + result ≤ length image.now) }
{
    (at..at + DataRun::LENGTH)
        .take_while(|b| is_untraced(image, marks, *b))
        .count()
}

// The data run at p, where the code that begins up to p ends there; none on a byte of code. An instruction that begins before p and goes
// past it would cover p, so the run can end only before a traced position.
pub fn unmasked_run<'a>(image: &'a [u8], marks: &[u8], p: u32, end: usize) -> &'a [u8]
    ensures { result.now ≡ unmasked_run image.now marks.now p end }
{
    let at = p as usize;
    if at < end {
        return &image[0..0];
    }
    if image.len() <= at {
        return &image[0..0];
    }
    let e = at + untraced_length(image, marks, at);
    &image[at..e]
}
