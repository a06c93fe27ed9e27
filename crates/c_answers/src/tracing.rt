// The calls of the tracer, answered by replies.
ghost use Rattle.std.specs.Prelude.{◌≡◌};
ghost use Rattle.trace.specs.Start.{start_answer, start_marks};
ghost use Rattle.trace.specs.Step.{step_answer, step_marks};
ghost use Rattle.trace.specs.Run.{run_answer, run_marks, run_order};
ghost use Rattle.sweep.specs.Sweep.{sweep_answer, sweep_leaves};
ghost use Rattle.c_answers.specs.Reply.{reply_of, count_values};
ghost use Rattle.c_answers.specs.Tracing.{step_values, run_values, sweep_values};

use crate::into_reply::IntoReply;
use crate::reply::Reply;
use instruction::Mode;

// Accepted: the number of positions set.
pub fn start(image: &[u8], marks: &mut [u8], entries: &[u32], pins: &[u32]) -> Reply
    ensures value { result ≡ reply_of count_values (start_answer image.now marks.old entries.now pins.now) }
    ensures marks_after { marks.new ≡ start_marks image.now marks.old entries.now pins.now }
{
    trace::start::start(image, marks, entries, pins).into_reply()
}

// Accepted: the new mark, and how many positions became waiting.
pub fn step(mode: Mode, image: &[u8], marks: &mut [u8], p: u32) -> Reply
    ensures value { result ≡ reply_of step_values (step_answer mode image.now marks.old p) }
    ensures marks_after { marks.new ≡ step_marks mode image.now marks.old p }
{
    trace::step::step(mode, image, marks, p).into_reply()
}

// Accepted: 1 where it finished or 0 where the limit stopped it, the steps, and the positions noted.
pub fn run(
    mode: Mode,
    image: &[u8],
    marks: &mut [u8],
    order: &mut [u32],
    entries: &[u32],
    pins: &[u32],
    limit: u32,
) -> Reply
    ensures value { result
        ≡ reply_of run_values (run_answer mode image.now marks.old order.old entries.now pins.now limit) }
    ensures marks_after { marks.new ≡ run_marks mode image.now marks.old order.old entries.now pins.now limit }
    ensures order_after { order.new ≡ run_order mode image.now marks.old order.old entries.now pins.now limit }
{
    trace::run::run(mode, image, marks, order, entries, pins, limit).into_reply()
}

// Accepted: the sweeps, the last one counted, and the steps.
pub fn sweep(mode: Mode, image: &[u8], marks: &mut [u8], entries: &[u32], pins: &[u32]) -> Reply
    ensures value { result ≡ reply_of sweep_values (sweep_answer mode image.now marks.old entries.now pins.now) }
    ensures marks_after { marks.new ≡ sweep_leaves mode image.now marks.old entries.now pins.now }
{
    sweep::sweep::sweep(mode, image, marks, entries, pins).into_reply()
}
