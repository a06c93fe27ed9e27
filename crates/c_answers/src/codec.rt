// The calls on instructions, answered by replies. A form is passed as a first byte: all 256 name one, so that there is no further refusal.
ghost use Rattle.std.specs.Prelude.{◌≡◌};
ghost use Rattle.instruction.specs.Decode.{decode_answer};
ghost use Rattle.instruction.specs.Encode.{encode_answer, encode_room};
ghost use Rattle.instruction.specs.Resolve.{resolve_answer};
ghost use Rattle.targets.specs.Targets.{targets_answer};
ghost use Rattle.c_answers.specs.Reply.{reply_of, count_values};
ghost use Rattle.c_answers.specs.Codec.{instr_values, named, targets_values};

use crate::into_reply::IntoReply;
use crate::reply::Reply;
use instruction::{Instr, Mode, Parts};

// Accepted: form, size, three operands.
pub fn decode(bytes: &[u8]) -> Reply
    ensures { result ≡ reply_of instr_values (decode_answer bytes.now) }
{
    Parts::decode(bytes).into_reply()
}

// Accepted: the number of bytes written.
pub fn encode(first: u8, a: i32, b: i32, c: i32, out: &mut [u8]) -> Reply
    ensures value { result ≡ reply_of count_values (encode_answer (named first a b c) out.old) }
    ensures out_after { out.new ≡ encode_room (named first a b c) out.old }
{
    Instr::with_first(first, a, b, c).encode(out).into_reply()
}

// Accepted: form, size, three fields.
pub fn resolve(mode: Mode, first: u8, a: i32, b: i32, c: i32, base: u32) -> Reply
    ensures { result ≡ reply_of instr_values (resolve_answer mode (named first a b c) base) }
{
    Instr::with_first(first, a, b, c)
        .resolve(mode, base)
        .into_reply()
}

// Accepted: how many targets, then the targets.
pub fn targets(mode: Mode, position: u32, first: u8, a: i32, b: i32, c: i32) -> Reply
    ensures { result ≡ reply_of targets_values (targets_answer mode position (named first a b c)) }
{
    let instr = Instr::with_first(first, a, b, c);
    targets::targets(mode, position, instr).into_reply()
}
