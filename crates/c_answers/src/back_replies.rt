// The answers of the reader as replies.
ghost use Rattle.std.specs.Prelude.{Ok, Err};
ghost use Rattle.read_back.specs.Back.{restore_refused};
ghost use Rattle.read_back.specs.Read.{read_of};
ghost use Rattle.c_answers.specs.Lengths.{found_lengths, read_lengths, restore_lengths};
ghost use Rattle.c_answers.specs.Places.{line_values};
ghost use Rattle.c_answers.specs.Reply.{reply_of, no_values};

use crate::into_reply::IntoReply;
use crate::reply::Reply;
use read_back::{Place, ReadError, Record, RestoreError};

// Of a line its letter, its position, and how many positions or bytes follow; all are 0 at the end.
impl IntoReply for Option<(Record, Place)> {
    ghost told = { λ f. reply_of line_values (read_of (Ok f)) };

    ghost lengths = { found_lengths };

    fn into_reply(self) -> Reply {
        match self {
            Some((r, _)) => Reply::new(0, &[r.letter as i64, r.position as i64, r.count as i64]),
            None => Reply::new(0, &[]),
        }
    }
}

impl IntoReply for ReadError {
    ghost told = { λ e. reply_of line_values (read_of (Err e)) };

    ghost lengths = { read_lengths };

    fn into_reply(self) -> Reply {
        Reply::new(15, &[self.line as i64])
    }
}

impl IntoReply for RestoreError {
    ghost told = { λ e. reply_of no_values (restore_refused e) };

    ghost lengths = { restore_lengths };

    fn into_reply(self) -> Reply {
        match self {
            RestoreError::Size(e) => e.into_reply(),
            RestoreError::NoRoom(n) => Reply::new(11, &[n as i64]),
            RestoreError::Malformed(k) => Reply::new(15, &[k as i64]),
            RestoreError::PastEnd(k) => Reply::new(16, &[k as i64]),
        }
    }
}
