// Clearing the bytes of an image's positions.
ghost use Rattle.std.specs.Prelude.{◌≡◌, leb, length};
ghost use Rattle.marks.specs.Clear.{wiped};

use crate::mark::Mark;

// Clears the first n bytes of a room that has as many: whether it has. The room may be longer than n.
pub fn clear(room: &mut [u8], n: usize) -> bool
    ensures value { result ≡ leb n (length room.old) }
    ensures room_after { room.new ≡ wiped n room.old }
{
    if room.len() < n {
        return false;
    }
    room[..n].fill(Mark::UNTOUCHED);
    true
}
