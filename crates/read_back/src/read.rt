// The core: the record on one line of a text.
ghost use Rattle.std.specs.Prelude.{◌≡◌};
ghost use Rattle.read_back.specs.Read.{read_of, read_answer};

use crate::place::{Place, Record};
use crate::{line, order};
use instruction::Mode;
use targets::Image;
use text::cut;

// 15: malformed or out of order, with the line's number.
#[derive(Clone, Copy, Debug, PartialEq, Eq)]
pub struct ReadError {
    pub line: usize,
}

// What the line says that begins at a place, whoever made the place, and the place after it; nothing where no line begins at or after the
// place.
pub fn read_line(
    mode: Mode,
    text: &[u8],
    place: Place,
) -> Result<Option<(Record, Place)>, ReadError>
    ensures { read_of result ≡ read_answer mode text.now place }
{
    if text.len() <= place.at {
        return Ok(None);
    }
    let at = place.at;
    let e = cut::end(text, at, cut::LINE_END);
    let l = &text[at..e];
    let bad = ReadError { line: place.line };
    let p = line::position(l);
    if p == Image::NOWHERE {
        return Err(bad);
    }
    if !line::is_line(mode, l, p) {
        return Err(bad);
    }
    let record = line::record(l, p);
    if !order::follows(place, record) {
        return Err(bad);
    }
    let next = Place {
        at: e + 1,
        line: order::line_after(place.line),
        last: record.position,
        letter: record.letter,
    };
    Ok(Some((record, next)))
}
