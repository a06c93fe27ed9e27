// A line of a log.
ghost use Rattle.std.specs.Prelude.{◌≡◌};
ghost use Rattle.replay.specs.Line.{position_of};

use targets::Image;
use text::{cut, four};

pub const LENGTH: usize = 7;

// The position that a line tells, its byte 10 with it; 65,536 where it is none, as `fault_at` (specs/Take.antt) takes it.
pub fn position_of(line: &[u8; LENGTH]) -> u32
    ensures { result ≡ position_of line.now }
{
    if line[0] != b'P' {
        return Image::NOWHERE;
    }
    if line[1] != cut::TAB {
        return Image::NOWHERE;
    }
    if line[6] != cut::LINE_END {
        return Image::NOWHERE;
    }
    four::read_four(&line[2..6])
}
