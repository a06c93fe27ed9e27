// One line of a listing, read over what the lines before it gave.
ghost use Rattle.std.specs.Prelude.{◌≡◌, ◌≤◌, ◌<◌, length, drop};
ghost use Rattle.text.specs.Cut.{up_to};
ghost use Rattle.read_back.specs.Turn.{Turned};

use crate::back::RestoreError;
use crate::place::Place;
use crate::{laying, noted, read};
use instruction::Mode;
use text::bytes;

// Reads the line at a place and notes what it lists, if it is good: the place of the next line, and where what is listed ends.
pub fn read_on(
    mode: Mode,
    text: &[u8],
    place: Place,
    image: &mut [u8],
    table: &mut [u64; noted::WORDS],
    end: usize,
) -> Result<(Place, usize), RestoreError>
    requires { (place.at < length text.now) × (end ≤ length image.old) }
    ensures { Turned mode place end image.old table.old (up_to 10 (drop place.at text.now)) result
        image.new table.new }
{
    let Some((r, next)) = read::read_line(mode, text, place)? else {
        unreachable!()
    };
    let at = place.at;
    let e = next.at - 1;
    let p = r.position;
    let d = laying::listed(&text[at..e], r);
    if !laying::agree(d, image, p as usize, end) {
        return Err(RestoreError::Malformed(place.line));
    }
    let far = laying::far(d, p);
    if image.len() < far {
        return Err(RestoreError::PastEnd(place.line));
    }
    bytes::put(d, image, p as usize);
    noted::note(r, table);
    Ok((next, end.max(far)))
}
