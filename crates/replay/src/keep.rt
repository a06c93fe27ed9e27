// The bytes of a partial line, held between blocks.
ghost use Rattle.std.specs.Prelude.{◌≡◌, ◌++◌, ◌<◌, min, length, take};
ghost use Rattle.std.proofs.lemmas.List.Edits.{sets};
ghost use Rattle.replay.specs.Log.{number_of, partial, keeping};

use crate::fault::Fault;
use crate::log::Log;
use crate::{line, next};
use text::cut;

// Fewer than seven bytes as one number, the first lowest.
fn number_of(rest: &[u8]) -> u64
    requires { length rest.now < 7 }
    ensures { result ≡ number_of rest.now }
{
    let mut bytes = [0u8; 8];
    bytes[..rest.len()].copy_from_slice(rest);
    u64::from_le_bytes(bytes)
}

// Fewer than seven bytes held, unless a line ends among them, which is then too short.
pub fn keep(log: Log, rest: &[u8]) -> Log
    requires { length rest.now < 7 }
    ensures { result ≡ keeping log rest.now }
{
    if rest.contains(&cut::LINE_END) {
        return next::refuse(log, Fault::Malformed);
    }
    Log {
        refusal: 0,
        held: rest.len() as u64,
        part: number_of(rest),
        ..log
    }
}

// How many bytes are held: six at most, also in a record that no call made.
pub fn held_in(log: Log) -> usize
    ensures { result ≡ min log.held 6 }
{
    (log.held as usize).min(6)
}

// Writes the bytes that are held, and after them those of a text, into a line of seven: how many there are.
pub fn begin_line(log: Log, text: &[u8], line: &mut [u8; line::LENGTH]) -> usize
    ensures value { result ≡ length (take 7 (partial log ++ text.now)) }
    ensures line_after { line.new ≡ sets line.old 0 (take 7 (partial log ++ text.now)) }
{
    let held = held_in(log);
    let missing = text.len().min(line::LENGTH - held);
    let n = held + missing;
    let part = log.part.to_le_bytes();
    line[..held].copy_from_slice(&part[..held]);
    line[held..n].copy_from_slice(&text[..missing]);
    n
}
