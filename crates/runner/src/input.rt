// What is read into a room of fixed length.
ghost use Rattle.std.specs.Prelude.{◌≡◌, ◌≤◌, ◌<◌, IfOk, IfSome, length, take};
ghost use Rattle.std.specs.Io.KnownBytes.{Consumes, IsAtEnd};

use std::fs::Files;
use std::io::Read;
use std::{fs, io};

// Reads until the room is full or the input ends: how many bytes it put at its start. They are all that the input had where they leave room.
pub fn read_full<R: Read>(from: &mut R, room: &mut [u8]) -> io::Result<usize>
    ensures within { IfOk result (λ n. n ≤ length room.new) }
    ensures bytes { IfOk result (λ n. Consumes (R.remaining from.old) (R.remaining from.new) (take n room.new)) }
    ensures end { IfOk result (λ n. n < length room.new → IsAtEnd (R.remaining from.new)) }
{
    let mut done: usize = 0;
    // How far a turn goes is what the reader gives, so no iterator counts the turns.
    while done < room.len() {
        match from.read(&mut room[done..])? {
            0 => return Ok(done),
            n => done += n,
        }
    }
    Ok(done)
}

// A whole file, read into a room; none where it fills the room, since more of it may be left.
pub fn read_file<'a>(
    files: &impl Files,
    path: &str,
    room: &'a mut [u8],
) -> io::Result<Option<&'a [u8]>>
    ensures { IfOk result (λ read. IfSome read (λ text. length text.now < length room.old)) }
{
    let mut file = fs::open(files, path)?;
    let n = read_full(&mut file, room)?;
    if n == room.len() {
        return Ok(None);
    }
    Ok(Some(&room[..n]))
}
