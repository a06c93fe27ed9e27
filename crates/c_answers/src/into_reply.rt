// What becomes a reply: the value of an accepted call, the error of a refused one, and a result of either.
ghost use Rattle.std.specs.Prelude.{◌≡◌, ℕ, List};
ghost use Rattle.c_answers.specs.Reply.{reply, count_values, of_result};
ghost use Rattle.c_answers.specs.Lengths.{Small, alone, none};

use crate::reply::Reply;

// A length that does not fit a value cannot come from a call, but its type alone does not say so.
pub trait IntoReply {
    ghost use Rattle.c_answers.specs.declared.reply.Reply.{Reply};

    ghost told: { Self → Reply };

    // The numbers of 64 bits among the values.
    ghost lengths: { Self → List ℕ };

    fn into_reply(self) -> Reply
        requires { Small (lengths self) }
        ensures { result ≡ told self };
}

impl<T: IntoReply, E: IntoReply> IntoReply for Result<T, E> {
    ghost told = { of_result T.told E.told };

    ghost lengths = { of_result T.lengths E.lengths };

    fn into_reply(self) -> Reply {
        match self {
            Ok(value) => value.into_reply(),
            Err(error) => error.into_reply(),
        }
    }
}

impl IntoReply for usize {
    ghost told = { λ n. reply 0 (count_values n) };

    ghost lengths = { alone };

    fn into_reply(self) -> Reply {
        Reply::new(0, &[self as i64])
    }
}

impl IntoReply for u32 {
    ghost told = { λ n. reply 0 (count_values n) };

    ghost lengths = { none };

    fn into_reply(self) -> Reply {
        Reply::new(0, &[self as i64])
    }
}
