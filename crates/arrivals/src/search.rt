// The search for the next arrival.
ghost use Rattle.std.specs.Prelude.{◌≡◌, ◌≤◌, ◌<◌, length};
ghost use Rattle.arrivals.specs.Arrivals.{next_arrival};
ghost use Rattle.arrivals.specs.Index.{lowest_of, names_held};
ghost use Rattle.arrivals.specs.Search.{if_below};

use crate::{fall, naming};
use instruction::Mode;

// The lowest position from this one on, of those before an end, that names p and had it among its targets. The step from one to the next is
// told by what is found.
fn next_named(mode: Mode, image: &[u8], marks: &[u8], p: u32, from: u32, end: u32) -> Option<u32>
    requires { (length image.now ≤ 65536) × (length image.now ≤ length marks.now) × (p < length image.now) × (end ≤ length image.now) }
    ensures { result ≡ if_below end (lowest_of (names_held mode image.now marks.now p) end from) }
{
    let mut at = from;
    while let Some(q) = naming::next_naming(image, marks, at, end) {
        if p == targets::name_at(mode, image, q) {
            return Some(q);
        }
        at = q + 1;
    }
    None
}

// The lowest arrival at p that is not below this position. Control goes on to p from right before it alone, so where it does is asked first,
// and all others are asked only what they name. Within the loop over all arrivals the search is made into slower code.
#[inline(never)]
pub fn next_arrival(mode: Mode, image: &[u8], marks: &[u8], p: u32, from: u32) -> Option<u32>
    requires { (length image.now ≤ 65536) × (length image.now ≤ length marks.now) × (p < length image.now) }
    ensures { result ≡ if_below (length image.now) (next_arrival mode image.now marks.now p from) }
{
    let n = image.len() as u32;
    let falls = fall::next_fall(mode, image, marks, p, from);
    let end = falls.min(n);
    let named = next_named(mode, image, marks, p, from, end);
    named.or((falls < n).then_some(falls))
}
