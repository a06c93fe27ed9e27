// Lines of image bytes, as the listing program reads them.
ghost use Rattle.std.specs.Prelude.{◌≡◌, [], ◌∷◌, ◌++◌, ◌+◌, ◌*◌, ◌≤◌, length};
ghost use Rattle.std.proofs.lemmas.List.Edits.{sets};
ghost use Rattle.listing.specs.Hex.{hex2, hexes};
ghost use Rattle.text.specs.Puts.{Puts};
ghost use Rattle.views.specs.View.{viewed_of, room_answer, room_after};
ghost use Rattle.unlist_text.specs.Unlisted.{image_text};

use list_text::Input;
use views::ViewError;

// Writes the two digits of a byte at a place; the next place.
fn put_pair(b: u8, room: &mut [u8], at: usize) -> usize
    requires { at + 2 ≤ length room.old }
    ensures { Puts (hex2 b) at room.old room.new result }
{
    room[at] = listing::hex1(b as u32 / 16);
    room[at + 1] = listing::hex1(b as u32);
    at + 2
}

// Writes a line of these bytes at a place; the next place.
fn put_line(bytes: &[u8], room: &mut [u8], at: usize) -> usize
    requires { at + 2 * length bytes.now + 1 ≤ length room.old }
    ensures { Puts (hexes bytes.now ++ 10 ∷ []) at room.old room.new result }
{
    let mut a = at;
    for b in bytes {
        a = put_pair(*b, room, a);
    }
    room[a] = b'\n';
    a + 1
}

// Writes an image's lines.
fn put_lines(image: &[u8], room: &mut [u8])
    requires { length (image_text image.now) ≤ length room.old }
    ensures { room.new ≡ sets room.old 0 (image_text image.now) }
{
    let mut at: usize = 0;
    for bytes in image.chunks(Input::MOST_IN_LINE) {
        at = put_line(bytes, room, at);
    }
}

// An image of at most 65,536 bytes as image lines: how many bytes were written, or 11 with how many are needed.
pub fn put_image(image: &[u8], room: &mut [u8]) -> Result<usize, ViewError>
    requires { length image.now ≤ 65536 }
    ensures result_value { viewed_of result ≡ room_answer [] (image_text image.now) room.old }
    ensures room_after { room.new ≡ room_after [] (image_text image.now) room.old }
{
    let n = image.len();
    let need = n * 2 + n.div_ceil(Input::MOST_IN_LINE);
    if room.len() < need {
        return Err(ViewError::NoRoom(need));
    }
    put_lines(image, room);
    Ok(need)
}
