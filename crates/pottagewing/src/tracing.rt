// The exported calls of the tracer.
ghost use Rattle.std.specs.Prelude.{◌≡◌};
ghost use Rattle.trace.specs.Start.{start_answer, start_marks};
ghost use Rattle.trace.specs.Step.{step_answer, step_marks};
ghost use Rattle.trace.specs.Run.{run_answer, run_marks, run_order};
ghost use Rattle.sweep.specs.Sweep.{sweep_answer, sweep_leaves};
ghost use Rattle.c_answers.specs.Modes.{mode_of};
ghost use Rattle.c_answers.specs.Reply.{refusal_number, values_of, count_values};
ghost use Rattle.c_answers.specs.Tracing.{step_values, run_values, sweep_values};

// Accepted: the number of positions set.
pub fn pw_start(
    image: &[u8],
    marks: &mut [u8],
    entries: &[u32],
    pins: &[u32],
    answer: &mut [i64; 5],
) -> u32
    ensures value { result ≡ refusal_number (start_answer image.now marks.old entries.now pins.now) }
    ensures answer_after { answer.new ≡ values_of count_values (start_answer image.now marks.old entries.now pins.now) }
    ensures marks_after { marks.new ≡ start_marks image.now marks.old entries.now pins.now }
{
    c_answers::start(image, marks, entries, pins).give(answer)
}

// Accepted: the new mark, and how many positions became waiting.
pub fn pw_step(mode: u32, image: &[u8], marks: &mut [u8], p: u32, answer: &mut [i64; 5]) -> u32
    ensures value { result ≡ refusal_number (step_answer (mode_of mode) image.now marks.old p) }
    ensures answer_after { answer.new ≡ values_of step_values (step_answer (mode_of mode) image.now marks.old p) }
    ensures marks_after { marks.new ≡ step_marks (mode_of mode) image.now marks.old p }
{
    c_answers::step(c_answers::mode(mode), image, marks, p).give(answer)
}

// Accepted: 1 where it finished or 0 where the limit stopped it, the steps, and the positions noted.
pub fn pw_run(
    mode: u32,
    image: &[u8],
    marks: &mut [u8],
    order: &mut [u32],
    entries: &[u32],
    pins: &[u32],
    limit: u32,
    answer: &mut [i64; 5],
) -> u32
    ensures value { result
        ≡ refusal_number (run_answer (mode_of mode) image.now marks.old order.old
        entries.now pins.now limit) }
    ensures answer_after { answer.new
        ≡ values_of run_values (run_answer (mode_of mode) image.now marks.old order.old
        entries.now pins.now limit) }
    ensures marks_after { marks.new
        ≡ run_marks (mode_of mode) image.now marks.old order.old entries.now pins.now limit }
    ensures order_after { order.new
        ≡ run_order (mode_of mode) image.now marks.old order.old entries.now pins.now limit }
{
    c_answers::run(
        c_answers::mode(mode),
        image,
        marks,
        order,
        entries,
        pins,
        limit,
    )
    .give(answer)
}

// Accepted: the sweeps, the last one counted, and the steps.
pub fn pw_sweep(
    mode: u32,
    image: &[u8],
    marks: &mut [u8],
    entries: &[u32],
    pins: &[u32],
    answer: &mut [i64; 5],
) -> u32
    ensures value { result ≡ refusal_number (sweep_answer (mode_of mode) image.now marks.old entries.now pins.now) }
    ensures answer_after { answer.new
        ≡ values_of sweep_values (sweep_answer (mode_of mode) image.now marks.old entries.now pins.now) }
    ensures marks_after { marks.new ≡ sweep_leaves (mode_of mode) image.now marks.old entries.now pins.now }
{
    c_answers::sweep(c_answers::mode(mode), image, marks, entries, pins).give(answer)
}
