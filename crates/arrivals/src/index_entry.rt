// One position entered into an index that has all above it.
ghost use Rattle.std.specs.Prelude.{◌≡◌, ◌+◌, ◌≤◌, ◌<◌, length};
ghost use Rattle.arrivals.specs.Entered.{linked, headed, Entered};

use crate::named;
use instruction::Mode;

// Notes at a place who names t first so far.
fn link(index: &mut [u16], n: usize, t: u32, place: usize)
    requires { (n ≤ length index.old) × (place < length index.old) }
    ensures { index.new ≡ linked n t place index.old }
{
    let at = t as usize;
    if at < n {
        index[place] = index[at];
    }
}

// Now q is the first.
fn head(index: &mut [u16], n: usize, t: u32, q: u32)
    requires { (n ≤ length index.old) × (q < 65535) }
    ensures { index.new ≡ headed n t q index.old }
{
    let at = t as usize;
    if at < n {
        index[at] = q as u16;
    }
}

pub fn enter(mode: Mode, image: &[u8], marks: &[u8], index: &mut [u16], q: u32)
    requires { (q + 1 < length image.now) × (length image.now ≤ 65536) × Entered mode image.now marks.now (q + 1) index.old }
    ensures { Entered mode image.now marks.now q index.new }
{
    let n = image.len();
    let t = named::named_at(mode, image, marks, q);
    link(index, n, t, n + q as usize);
    head(index, n, t, q);
}
