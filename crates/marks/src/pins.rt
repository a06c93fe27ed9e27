// Positions kept off the trace.
ghost use Rattle.std.specs.Prelude.{◌≡◌};
ghost use Rattle.reach.specs.Pins.{pin};

use crate::mark::Mark;

// These positions pinned, where they are inside an image of n bytes; past the end of the marks there is none.
pub fn pin(marks: &mut [u8], n: usize, pins: &[u32])
    ensures { marks.new ≡ pin n pins.now marks.old }
{
    for q in pins {
        if (*q as usize) < n {
            Mark::put(marks, *q, Mark::PINNED);
        }
    }
}
