// A run: positions are taken up first come, first served.
// Ported from `build_instruction_graph` of src/disasm.rs of wtetzner/waterbear, and changed: each position is taken up once, and the lent
// order list is the queue.
ghost use Rattle.std.specs.Prelude.{◌≡◌, ◌+◌, ◌≤◌, ◌<◌, length};
ghost use Rattle.reach.specs.Tracer.{found};
ghost use Rattle.trace.specs.Run.{ran_of, run_answer, run_marks, run_order, RanTo, StepsTied, NextTaken};
ghost use Rattle.marks.specs.Tracer.{tracer_of};
ghost use Rattle.trace.specs.declared.run.RunError.TheVariants.{Size, Cut};

use crate::{begin, queue};
use instruction::{CutOff, Mode};
use marks::SizeError;
use targets::NotWhole;

// The steps, and the positions noted.
#[derive(Clone, Copy, Debug, PartialEq, Eq)]
pub struct Counts {
    pub steps: u32,
    pub noted: u32,
}

impl Counts {
    pub fn new(steps: u32, noted: u32) -> Self
        ensures { (result.steps ≡ steps) × (result.noted ≡ noted) }
    {
        Self { steps, noted }
    }
}

#[derive(Clone, Copy, Debug, PartialEq, Eq)]
pub enum Ran {
    // Nothing waiting.
    Finished(Counts),
    // The limit used up.
    Stopped(Counts),
}

#[derive(Clone, Copy, Debug, PartialEq, Eq)]
pub enum RunError {
    // 1 and 2.
    Size(SizeError),
    // 3: the order list's length.
    ShortOrder(usize),
    // 5
    Cut(CutOff),
}

impl From<SizeError> for RunError {
    ghost from_gives = { λ e r. r ≡ Size e };

    fn from(e: SizeError) -> RunError {
        RunError::Size(e)
    }
}

impl From<CutOff> for RunError {
    ghost from_gives = { λ c r. r ≡ Cut c };

    fn from(c: CutOff) -> RunError {
        RunError::Cut(c)
    }
}

// Takes up p, the next of the queue, and writes what it found at the list's end: its new end, or the instruction cut off.
fn take_next(
    mode: Mode,
    image: &[u8],
    marks: &mut [u8],
    order: &mut [u32],
    p: u32,
    tail: usize,
) -> Result<usize, CutOff>
    requires p_in_bounds { (p < length image.now) × (length image.now ≤ 65536) }
    requires p_in_bounds_2 { tail + length (found (tracer_of mode image.now) marks.old p) ≤ length order.old }
    ensures { NextTaken mode image.now marks.old order.old p tail result marks.new order.new }
{
    match targets::ways_at(mode, image, p) {
        Ok(to) => {
            let taken = marks::take_up(image, marks, p, to);
            Ok(queue::put(order, tail, taken.noted))
        }
        Err(NotWhole::Cut(c)) => Err(c),
        // A position of the queue is inside, so that this is never met.
        Err(NotWhole::Outside) => Ok(tail),
    }
}

// A run where the sizes are right. A struct over the lent marks would have to say in each contract that it still holds them, so the sizes
// are asked for here.
fn run_on(
    mode: Mode,
    image: &[u8],
    marks: &mut [u8],
    order: &mut [u32],
    entries: &[u32],
    pins: &[u32],
    limit: u32,
) -> Result<Ran, RunError>
    requires { (length image.now ≤ 65536) × (length image.now ≤ length marks.old) × (length image.now ≤ length order.old) }
    ensures { RanTo mode image.now marks.old order.old entries.now pins.now limit result
        marks.new order.new }
{
    let n = image.len();
    begin::begin(marks, n, pins);
    let most = limit as usize;
    let mut tail = queue::put_entries(marks, order, n, entries);
    let mut head: usize = 0;
    // The list grows while it is gone through, so no range stands for the loop.
    while head < tail && head < most {
        let p = order[head];
        // What `?` hands on goes through memory here, and a step of straight code would take twice as long.
        match take_next(mode, image, marks, order, p, tail) {
            Ok(end) => tail = end,
            Err(c) => return Err(RunError::Cut(c)),
        }
        head += 1;
    }
    let counts = Counts {
        steps: head as u32,
        noted: tail as u32,
    };
    if head < tail {
        return Ok(Ran::Stopped(counts));
    }
    Ok(Ran::Finished(counts))
}

// A run from the entries, for at most limit steps.
pub fn run(
    mode: Mode,
    image: &[u8],
    marks: &mut [u8],
    order: &mut [u32],
    entries: &[u32],
    pins: &[u32],
    limit: u32,
) -> Result<Ran, RunError>
    ensures result_value { ran_of result ≡ run_answer mode image.now marks.old order.old entries.now pins.now limit }
    ensures marks_after { marks.new ≡ run_marks mode image.now marks.old order.old entries.now pins.now limit }
    ensures order_after { order.new ≡ run_order mode image.now marks.old order.old entries.now pins.now limit }
    ensures steps_tied { StepsTied image.now result marks.new }
{
    marks::check_sizes(image, marks)?;
    if order.len() < image.len() {
        return Err(RunError::ShortOrder(order.len()));
    }
    run_on(mode, image, marks, order, entries, pins, limit)
}
