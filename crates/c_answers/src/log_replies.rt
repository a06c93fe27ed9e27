// The answers of a replay as replies.
ghost use Rattle.replay.specs.Answers.{replay_refused};
ghost use Rattle.c_answers.specs.Lengths.{totals_lengths, replay_lengths};
ghost use Rattle.c_answers.specs.Logs.{replay_values};
ghost use Rattle.c_answers.specs.Reply.{reply, reply_of, no_values};

use crate::into_reply::IntoReply;
use crate::reply::Reply;
use replay::{ReplayError, Totals};

impl IntoReply for Totals {
    ghost told = { λ t. reply 0 (replay_values t) };

    ghost lengths = { totals_lengths };

    fn into_reply(self) -> Reply {
        Reply::new(
            0,
            &[self.lines as i64, self.interrupts as i64, self.free as i64],
        )
    }
}

impl IntoReply for ReplayError {
    ghost told = { λ e. reply_of no_values (replay_refused e) };

    ghost lengths = { replay_lengths };

    fn into_reply(self) -> Reply {
        match self {
            ReplayError::View(e) => e.into_reply(),
            ReplayError::Malformed(n) => Reply::new(18, &[n as i64]),
            ReplayError::Untraced(n) => Reply::new(19, &[n as i64]),
            ReplayError::Forbidden(n) => Reply::new(20, &[n as i64]),
            ReplayError::Full(n) => Reply::new(21, &[n as i64]),
        }
    }
}
