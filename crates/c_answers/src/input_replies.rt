// The answers to an input as replies.
ghost use Rattle.std.specs.Prelude.{Err};
ghost use Rattle.list_text.specs.Text.{parsed_of};
ghost use Rattle.c_answers.specs.Lengths.{input_lengths, parse_lengths};
ghost use Rattle.c_answers.specs.Parsing.{input_values};
ghost use Rattle.c_answers.specs.Reply.{reply, reply_of};

use crate::into_reply::IntoReply;
use crate::reply::Reply;
use list_text::{Input, ParseError};

impl IntoReply for Input {
    ghost told = { λ c. reply 0 (input_values c) };

    ghost lengths = { input_lengths };

    fn into_reply(self) -> Reply {
        Reply::new(0, &[self.entries as i64, self.bytes as i64])
    }
}

impl IntoReply for ParseError {
    ghost told = { λ e. reply_of input_values (parsed_of (Err e)) };

    ghost lengths = { parse_lengths };

    fn into_reply(self) -> Reply {
        match self {
            ParseError::Malformed(k) => Reply::new(13, &[k as i64]),
            ParseError::NoRoom(c) => Reply::new(11, &[c.entries as i64, c.bytes as i64]),
        }
    }
}
