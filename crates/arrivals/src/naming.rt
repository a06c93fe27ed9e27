// Traced positions that name an address, by their marks and first bytes alone. What they name is asked elsewhere, so that no call stands in
// the loop over all positions: of most it is a load and a compare.
ghost use Rattle.std.specs.Prelude.{◌≡◌, ◌≤◌, ◌<◌, length};
ghost use Rattle.arrivals.specs.Index.{lowest_of};
ghost use Rattle.arrivals.specs.Search.{may_name, if_below};

use instruction::FirstByte;
use marks::Mark;

// Whether q had targets and names one of them: under the exception it had none.
fn may_name(image: &[u8], marks: &[u8], q: u32) -> bool
    requires { (q < length image.now) × (q < length marks.now) }
    ensures { result ≡ may_name image.now marks.now q }
{
    let at = q as usize;
    marks[at] == Mark::TRACED && targets::is_naming(FirstByte::read(image[at]).flow)
}

// The lowest of them from this position on, of those before an end.
pub fn next_naming(image: &[u8], marks: &[u8], from: u32, end: u32) -> Option<u32>
    requires { (end ≤ length image.now) × (end ≤ length marks.now) × (end ≤ 65536) }
    ensures { result ≡ if_below end (lowest_of (may_name image.now marks.now) end from) }
{
    // `find` over the same range takes a twentieth longer for all arrivals.
    for q in from..end {
        if may_name(image, marks, q) {
            return Some(q);
        }
    }
    None
}
