// The answers on instructions as replies.
ghost use Rattle.std.specs.Prelude.{Ok, Err};
ghost use Rattle.instruction.specs.CutOff.{cut_values};
ghost use Rattle.instruction.specs.Decode.{decode_refused};
ghost use Rattle.instruction.specs.Encode.{encoded_of};
ghost use Rattle.instruction.specs.ResolveOperand.{misfit_values, why_of, resolve_refused};
ghost use Rattle.targets.specs.Targets.{targets_of};
ghost use Rattle.c_answers.specs.Codec.{parts_values, instr_values, targets_values};
ghost use Rattle.c_answers.specs.Lengths.{none, encode_lengths, targets_lengths};
ghost use Rattle.c_answers.specs.Reply.{reply, reply_of, count_values, no_values};

use crate::into_reply::IntoReply;
use crate::reply::Reply;
use instruction::{
    CutOff, DecodeError, EncodeError, Instr, Misfit, OperandError, Parts, ResolveError,
};
use targets::{Targets, TargetsError};

// The size of a form has at most 3 bytes, and that of no form 0.
impl IntoReply for Parts {
    ghost told = { λ v. reply 0 (parts_values v) };

    ghost lengths = { none };

    fn into_reply(self) -> Reply {
        Reply::new(
            0,
            &[
                self.form as i64,
                self.size() as i64,
                self.a as i64,
                self.b as i64,
                self.c as i64,
            ],
        )
    }
}

impl IntoReply for Instr {
    ghost told = { λ i. reply 0 (instr_values i) };

    ghost lengths = { none };

    fn into_reply(self) -> Reply {
        self.apart().into_reply()
    }
}

impl IntoReply for Targets {
    ghost told = { λ t. reply_of targets_values (targets_of (Ok t)) };

    ghost lengths = { none };

    fn into_reply(self) -> Reply {
        match self {
            Targets::Nowhere => Reply::new(0, &[0]),
            Targets::One(a) => Reply::new(0, &[1, a as i64]),
            Targets::Two(a, b) => Reply::new(0, &[2, a as i64, b as i64]),
        }
    }
}

// Refusal 5: an instruction that the end cuts off.
impl IntoReply for CutOff {
    ghost told = { λ c. reply 5 (cut_values c) };

    ghost lengths = { none };

    fn into_reply(self) -> Reply {
        Reply::new(
            5,
            &[self.position as i64, self.first as i64, self.missing as i64],
        )
    }
}

// Refusal 7: an operand that does not fit its field.
impl IntoReply for Misfit {
    ghost told = { λ m. reply 7 (misfit_values m) };

    ghost lengths = { none };

    fn into_reply(self) -> Reply {
        Reply::new(7, &[self.operand as i64, self.value as i64])
    }
}

impl IntoReply for DecodeError {
    ghost told = { λ e. reply_of no_values (decode_refused e) };

    ghost lengths = { none };

    fn into_reply(self) -> Reply {
        match self {
            DecodeError::Nothing => Reply::new(12, &[0]),
            DecodeError::Cut(c) => c.into_reply(),
        }
    }
}

impl IntoReply for EncodeError {
    ghost told = { λ e. reply_of count_values (encoded_of (Err e)) };

    ghost lengths = { encode_lengths };

    fn into_reply(self) -> Reply {
        match self {
            EncodeError::Unfit(m) => m.into_reply(),
            EncodeError::NoRoom(n) => Reply::new(11, &[n as i64]),
        }
    }
}

impl IntoReply for OperandError {
    ghost told = { λ e. reply_of no_values (why_of e) };

    ghost lengths = { none };

    fn into_reply(self) -> Reply {
        match self {
            OperandError::Unfit(m) => m.into_reply(),
            OperandError::NoAddress(z) => Reply::new(8, &[z as i64]),
            OperandError::TooFar(z) => Reply::new(9, &[z as i64]),
            OperandError::OtherPage(t) => Reply::new(10, &[t.base as i64, t.address as i64]),
        }
    }
}

impl IntoReply for ResolveError {
    ghost told = { λ e. reply_of no_values (resolve_refused e) };

    ghost lengths = { none };

    fn into_reply(self) -> Reply {
        match self {
            ResolveError::FarBase(b) => Reply::new(14, &[b as i64]),
            ResolveError::Operand(e) => e.into_reply(),
        }
    }
}

impl IntoReply for TargetsError {
    ghost told = { λ e. reply_of targets_values (targets_of (Err e)) };

    ghost lengths = { targets_lengths };

    fn into_reply(self) -> Reply {
        match self {
            TargetsError::PastEnd(n) => Reply::new(14, &[n as i64]),
            TargetsError::Unfit(m) => m.into_reply(),
        }
    }
}
