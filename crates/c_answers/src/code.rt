// One `I` line by itself, answered by a reply.
ghost use Rattle.std.specs.Prelude.{◌≡◌};
ghost use Rattle.c_answers.specs.Reply.{reply_of, count_values, no_values};
ghost use Rattle.c_answers.specs.CodeLine.{line_refused, lined_of, code_line_answer, code_line_room};
ghost use Rattle.c_answers.specs.Lengths.{line_lengths};
ghost use Rattle.c_answers.specs.declared.code.LineError.TheVariants.{Decode};

use crate::into_reply::IntoReply;
use crate::reply::Reply;
use instruction::{DecodeError, Instr, Mode};

#[derive(Clone, Copy, Debug, PartialEq, Eq)]
enum LineError {
    // What decode refuses.
    Decode(DecodeError),
    // 14: the position after the instruction lies past memory's end.
    PastEnd(u64),
    // 11: how long the line is.
    NoRoom(usize),
}

impl From<DecodeError> for LineError {
    ghost from_gives = { λ e r. r ≡ Decode e };

    fn from(e: DecodeError) -> Self {
        LineError::Decode(e)
    }
}

impl IntoReply for LineError {
    ghost told = { λ e. reply_of no_values (line_refused e) };

    ghost lengths = { line_lengths };

    fn into_reply(self) -> Reply {
        match self {
            LineError::Decode(e) => e.into_reply(),
            LineError::PastEnd(n) => Reply::new(14, &[n as i64]),
            LineError::NoRoom(n) => Reply::new(11, &[n as i64]),
        }
    }
}

// The line of the instruction that bytes begin with, put into the room: how long it is.
fn put_line(mode: Mode, position: u32, bytes: &[u8], room: &mut [u8]) -> Result<usize, LineError>
    ensures result_value { lined_of result ≡ code_line_answer mode position bytes.now room.old }
    ensures room_after { room.new ≡ code_line_room mode position bytes.now room.old }
{
    let instr = Instr::decode(bytes)?;
    let next = position as u64 + instr.size() as u64;
    if (Instr::HIGHEST_BASE as u64) < next {
        return Err(LineError::PastEnd(next));
    }
    // What falls past the end of a room is not written: an empty one tells the length.
    let need = listing::code_line(mode, position, bytes, &mut []);
    if room.len() < need {
        return Err(LineError::NoRoom(need));
    }
    listing::code_line(mode, position, bytes, room);
    Ok(need)
}

// Accepted: the number of bytes written.
pub fn code_line(mode: Mode, position: u32, bytes: &[u8], room: &mut [u8]) -> Reply
    ensures value { result ≡ reply_of count_values (code_line_answer mode position bytes.now room.old) }
    ensures room_after { room.new ≡ code_line_room mode position bytes.now room.old }
{
    put_line(mode, position, bytes, room).into_reply()
}
