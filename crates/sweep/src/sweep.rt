// Sweeping the marks upward, again and again, until a sweep takes none. A sweep keeps up between which positions something is left waiting
// behind it, and the next one meets no other: so what takes one position in each sweep takes no time by the square.
ghost use Rattle.std.specs.Prelude.{◌≡◌, ◌≤◌, ◌<◌, length, take};
ghost use Rattle.reach.specs.Mark.{count, traced_mark};
ghost use Rattle.reach.specs.Sweep.{swept_marks};
ghost use Rattle.marks.specs.Tracer.{tracer_of};
ghost use Rattle.sweep.specs.Sweep.{swept_of, sweep_result, tally_of, sweep_answer, sweep_leaves};
ghost use Rattle.sweep.specs.Way.{Between, MetOn, SweptOver};

use crate::way;
use crate::way::Way;
use instruction::Mode;
use marks::{Mark, SizeError};

// The sweeps, the last one counted, and the steps.
#[derive(Clone, Copy, Debug, PartialEq, Eq)]
pub struct Tally {
    pub sweeps: u32,
    pub steps: u32,
}

impl Tally {
    pub fn new(sweeps: u32, steps: u32) -> Self
        ensures { (result.sweeps ≡ sweeps) × (result.steps ≡ steps) }
    {
        Self { sweeps, steps }
    }
}

// A sweep meets p. A struct over the lent marks would have to say in each contract that it still holds them, so the sizes are asked for here.
fn meet(mode: Mode, image: &[u8], marks: &mut [u8], p: u32, way: Way) -> Way
    requires { (p < length image.now) × (length image.now ≤ 65536) × (length image.now ≤ length marks.old) × (way.taken < 65536) }
    ensures { MetOn (tracer_of mode image.now) marks.old p way result marks.new }
{
    if marks[p as usize] != Mark::WAITING {
        return way;
    }
    let Ok(to) = targets::ways_at(mode, image, p) else {
        return way;
    };
    let up = marks::take_up(image, marks, p, to);
    way::after(way, p + 1, up.noted)
}

// One sweep, where all that it could take up stands between two bounds. What became waiting ahead is met, so the end moves on.
fn sweep_once(mode: Mode, image: &[u8], marks: &mut [u8], from: u32, to: u32) -> Way
    requires image_len_bound { (length image.now ≤ 65536) × (length image.now ≤ length marks.old) × (from ≤ length image.now) × (to ≤ length image.now) }
    requires between { Between (tracer_of mode image.now) marks.old from to }
    ensures { SweptOver (tracer_of mode image.now) marks.old result marks.new }
{
    let mut way = Way {
        taken: 0,
        end: to,
        from: image.len() as u32,
        to: 0,
    };
    let mut p = from;
    // The end moves on while the positions are met, so no range stands for the loop.
    while p < way.end {
        way = meet(mode, image, marks, p, way);
        p += 1;
    }
    way
}

// Sweeps until one takes none. One more than there are positions is never passed: each but the last takes one.
fn sweep_on(mode: Mode, image: &[u8], marks: &mut [u8]) -> Tally
    requires { (length image.now ≤ 65536) × (length image.now ≤ length marks.old) × (count traced_mark (take (length image.now) marks.old) ≡ 0) }
    ensures result_value { tally_of result ≡ sweep_result mode image.now marks.old }
    ensures marks_after { marks.new ≡ swept_marks (tracer_of mode image.now) marks.old }
{
    let n = image.len() as u32;
    let mut from: u32 = 0;
    let mut to = n;
    let mut steps: u32 = 0;
    for sweeps in 0..n + 1 {
        let way = sweep_once(mode, image, marks, from, to);
        if way.taken == 0 {
            return Tally {
                sweeps: sweeps + 1,
                steps,
            };
        }
        steps += way.taken;
        from = way.from;
        to = way.to;
    }
    Tally {
        sweeps: n + 1,
        steps,
    }
}

// Starts from the entries and sweeps until a sweep takes none.
pub fn sweep(
    mode: Mode,
    image: &[u8],
    marks: &mut [u8],
    entries: &[u32],
    pins: &[u32],
) -> Result<Tally, SizeError>
    ensures result_value { swept_of result ≡ sweep_answer mode image.now marks.old entries.now pins.now }
    ensures marks_after { marks.new ≡ sweep_leaves mode image.now marks.old entries.now pins.now }
{
    trace::start::start(image, marks, entries, pins)?;
    Ok(sweep_on(mode, image, marks))
}
