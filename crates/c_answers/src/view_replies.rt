// The answers of the views and of the packed map as replies.
ghost use Rattle.views.specs.View.{view_refused};
ghost use Rattle.map.specs.Ask.{ask_refused};
ghost use Rattle.map.specs.Update.{update_refused};
ghost use Rattle.c_answers.specs.Lengths.{view_lengths, ask_lengths, update_lengths};
ghost use Rattle.c_answers.specs.Reply.{reply_of, no_values};

use crate::into_reply::IntoReply;
use crate::reply::Reply;
use map::{AskError, UpdateError};
use views::ViewError;

impl IntoReply for ViewError {
    ghost told = { λ e. reply_of no_values (view_refused e) };

    ghost lengths = { view_lengths };

    fn into_reply(self) -> Reply {
        match self {
            ViewError::Size(e) => e.into_reply(),
            ViewError::Damaged(p) => Reply::new(6, &[p as i64]),
            ViewError::NoRoom(n) => Reply::new(11, &[n as i64]),
        }
    }
}

impl IntoReply for AskError {
    ghost told = { λ e. reply_of no_values (ask_refused e) };

    ghost lengths = { ask_lengths };

    fn into_reply(self) -> Reply {
        match self {
            AskError::LongImage(n) => Reply::new(1, &[n as i64]),
            AskError::NoRoom(n) => Reply::new(11, &[n as i64]),
            AskError::Outside(p) => Reply::new(17, &[p as i64]),
        }
    }
}

impl IntoReply for UpdateError {
    ghost told = { λ e. reply_of no_values (update_refused e) };

    ghost lengths = { update_lengths };

    fn into_reply(self) -> Reply {
        match self {
            UpdateError::View(e) => e.into_reply(),
            UpdateError::Outside(p) => Reply::new(17, &[p as i64]),
        }
    }
}
