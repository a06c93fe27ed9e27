// One `I` line by itself.
ghost use Rattle.listing.specs.Lines.{code_line};
ghost use Rattle.listing.specs.Rest.{code_rest};
ghost use Rattle.text.specs.Puts.{Puts};

use crate::lines;
use instruction::{Instr, Mode, Parts};

// The `I` line of bytes at p, ended by byte 10: how many bytes it has, 0 where decode or targets refuses, since the definition has no byte
// there. What falls past the end of the room is not written; a line has at most 31 bytes.
pub fn code_line(mode: Mode, p: u32, bytes: &[u8], room: &mut [u8]) -> usize
    ensures { Puts (code_line mode p bytes.now) 0 room.old room.new result }
{
    let next = p as u64 + targets::size_at(bytes, 0) as u64;
    if (Instr::HIGHEST_BASE as u64) < next {
        return 0;
    }
    lines::put_instr(mode, bytes, room, 0, p)
}

// What follows the bytes on the `I` line of just these bytes at p, ended by byte 10: how many bytes it has, 0 where they are not one
// instruction or targets refuses. What falls past the end of the room is not written.
pub fn code_rest(mode: Mode, p: u32, bytes: &[u8], room: &mut [u8]) -> usize
    ensures { Puts (code_rest mode p bytes.now) 0 room.old room.new result }
{
    let Ok(v) = Parts::decode(bytes) else {
        return 0;
    };
    let n = v.size();
    if n != bytes.len() {
        return 0;
    }
    let next = p as u64 + n as u64;
    if (Instr::HIGHEST_BASE as u64) < next {
        return 0;
    }
    lines::put_rest(mode, room, next, v)
}
