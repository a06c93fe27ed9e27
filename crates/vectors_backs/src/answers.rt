// What the calls answer and leave.
ghost use Rattle.std.specs.Prelude.{◌≡◌, length};

use instruction::Mode;
use marks::SizeError;
use read_back::{Place, ReadError, RestoreError};

// What stands in the rooms before.
pub const OLD: u8 = b'~';

// A last line's letter says which answer is wanted, and its number what the answer holds.
pub fn wanted(letter: u8, value: usize) -> Option<Result<usize, RestoreError>> {
    match letter {
        b'w' => Some(Ok(value)),
        b'l' => Some(Err(RestoreError::Size(SizeError::LongImage(value)))),
        b's' => Some(Err(RestoreError::Size(SizeError::ShortMarks(value)))),
        b'r' => Some(Err(RestoreError::NoRoom(value))),
        b'm' => Some(Err(RestoreError::Malformed(value))),
        b'p' => Some(Err(RestoreError::PastEnd(value))),
        _ => None,
    }
}

// Whether a room begins with as much of what is wanted as is to be written, and stays as it was after that.
pub fn is_left(room: &[u8], wanted: &[u8], n: usize) -> bool
    requires { length room.now ≡ length wanted.now }
{
    let k = n.min(room.len());
    room.starts_with(&wanted[..k]) && room[k..].iter().all(|b| *b == OLD)
}

// What a reader at the first line says of it goes with the answer: it is malformed where that is 15 for line 1, or 1, 2 or 11, which come
// before any line is looked at.
pub fn is_first(mode: Mode, text: &[u8], answer: Result<usize, RestoreError>) -> bool {
    match reader::read(mode, text, Place::start()) {
        Ok(Some(_)) => answer != Err(RestoreError::Malformed(1)),
        Ok(None) => text.is_empty(),
        Err(ReadError { line }) => {
            line == 1
                && matches!(
                    answer,
                    Err(
                        RestoreError::Size(_) | RestoreError::NoRoom(_) | RestoreError::Malformed(1)
                    )
                )
        }
    }
}
