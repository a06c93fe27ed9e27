// An index of all that name a position.
ghost use Rattle.std.specs.Prelude.{◌≡◌};
ghost use Rattle.arrivals.specs.Index.{is_index_room, room_of};

use crate::index_entry;
use instruction::Mode;
use targets::Image;

// Two cells for each position of the image are filled; a room of another length stays as it was, and so does any for an image past its
// limit; whether it is filled. From the last position down, so that what is noted so far is what comes after. The last itself names
// nothing: a jump, a branch or a call has at least two bytes.
pub fn index_into(mode: Mode, image: &[u8], marks: &[u8], index: &mut [u16]) -> bool
    ensures value { result ≡ is_index_room image.now index.old }
    ensures index_after { index.new ≡ room_of mode image.now marks.now index.old }
{
    if Image::LIMIT < image.len() {
        return false;
    }
    if index.len() != 2 * image.len() {
        return false;
    }
    index.fill(65_535);
    for q in (0..image.len().saturating_sub(1)).rev() {
        index_entry::enter(mode, image, marks, index, q as u32);
    }
    true
}
