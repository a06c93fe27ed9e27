// The answers of the tracer as replies.
ghost use Rattle.std.specs.Prelude.{Ok, Err};
ghost use Rattle.marks.specs.Refusals.{size_refused};
ghost use Rattle.trace.specs.Step.{stepped_of};
ghost use Rattle.trace.specs.Run.{ran_of};
ghost use Rattle.sweep.specs.Sweep.{swept_of};
ghost use Rattle.c_answers.specs.Lengths.{none, size_lengths, step_lengths, run_lengths};
ghost use Rattle.c_answers.specs.Reply.{reply_of, no_values};
ghost use Rattle.c_answers.specs.Tracing.{step_values, run_values, sweep_values};

use crate::into_reply::IntoReply;
use crate::reply::Reply;
use marks::SizeError;
use sweep::Tally;
use trace::{Advance, Ran, RunError, StepError};

impl IntoReply for Advance {
    ghost told = { λ a. reply_of step_values (stepped_of (Ok a)) };

    ghost lengths = { none };

    fn into_reply(self) -> Reply {
        Reply::new(0, &[self.mark as i64, self.waiting as i64])
    }
}

impl IntoReply for Ran {
    ghost told = { λ r. reply_of run_values (ran_of (Ok r)) };

    ghost lengths = { none };

    fn into_reply(self) -> Reply {
        match self {
            Ran::Finished(c) => Reply::new(0, &[1, c.steps as i64, c.noted as i64]),
            Ran::Stopped(c) => Reply::new(0, &[0, c.steps as i64, c.noted as i64]),
        }
    }
}

impl IntoReply for Tally {
    ghost told = { λ t. reply_of sweep_values (swept_of (Ok t)) };

    ghost lengths = { none };

    fn into_reply(self) -> Reply {
        Reply::new(0, &[self.sweeps as i64, self.steps as i64])
    }
}

impl IntoReply for SizeError {
    ghost told = { λ e. reply_of no_values (size_refused e) };

    ghost lengths = { size_lengths };

    fn into_reply(self) -> Reply {
        match self {
            SizeError::LongImage(n) => Reply::new(1, &[n as i64]),
            SizeError::ShortMarks(n) => Reply::new(2, &[n as i64]),
        }
    }
}

impl IntoReply for StepError {
    ghost told = { λ e. reply_of step_values (stepped_of (Err e)) };

    ghost lengths = { step_lengths };

    fn into_reply(self) -> Reply {
        match self {
            StepError::Size(e) => e.into_reply(),
            StepError::NotWaiting(v) => Reply::new(4, &[v as i64]),
            StepError::Cut(c) => c.into_reply(),
            StepError::Damaged(q) => Reply::new(6, &[q as i64]),
        }
    }
}

impl IntoReply for RunError {
    ghost told = { λ e. reply_of run_values (ran_of (Err e)) };

    ghost lengths = { run_lengths };

    fn into_reply(self) -> Reply {
        match self {
            RunError::Size(e) => e.into_reply(),
            RunError::ShortOrder(n) => Reply::new(3, &[n as i64]),
            RunError::Cut(c) => c.into_reply(),
        }
    }
}
