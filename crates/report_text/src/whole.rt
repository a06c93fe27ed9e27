// The report of a whole text.
ghost use Rattle.std.specs.Prelude.{◌≡◌, min, ◌+◌, ◌≤◌, length, replicate};
ghost use Rattle.std.proofs.lemmas.List.Edits.{sets};
ghost use Rattle.views.specs.View.{viewed_of};
ghost use Rattle.report_text.specs.Report.{report_answer, report_room, Filling, Measured};
ghost use Rattle.report_text.specs.Term.{state, most, most_printed, close_out, first_out, Writing};

use crate::enough::HIGHEST;
use crate::term::Term;
use crate::{copy, enough, term};
use views::ViewError;

// As much as is held of an image's text.
fn held() -> [u8; Term::MOST]
    ensures { result ≡ replicate 51200 0 }
{
    [0; Term::MOST]
}

// As long as what one call prints can be.
fn printed() -> [u8; Term::MOST_PRINTED]
    ensures { result ≡ replicate 512 0 }
{
    [0; Term::MOST_PRINTED]
}

// The sum, or 2^63 where it would be more.
fn more(n: usize, k: usize) -> usize
    ensures { result ≡ min (n + k) 9223372036854775808 }
{
    n.saturating_add(k).min(HIGHEST + 1)
}

// What one call of `take` left, with the count so far.
#[derive(Clone, Copy)]
pub struct Progress {
    pub term: Term,
    pub used: usize,
    pub count: usize,
}

// Takes a text up to the first byte that ends an image, and writes what is printed at a place.
fn write_some(
    term: Term,
    text: &[u8],
    held: &mut [u8],
    line: &mut [u8],
    room: &mut [u8],
    n: usize,
) -> Progress
    requires { (most ≤ length held.old) × (most_printed ≤ length line.old) }
    ensures writing { Writing term text.now held.old n held.new result }
    ensures room_after { room.new ≡ sets room.old n (first_out term text.now held.old) }
{
    // The rooms are long enough.
    let Ok(taken) = term::take(term, text, held, line) else {
        unreachable!();
    };
    copy::copy(&line[..taken.printed], room, n);
    Progress {
        term: taken.term,
        used: taken.used,
        count: more(n, taken.printed),
    }
}

// Writes what is printed at the end at a place: the count with it.
fn write_last(term: Term, held: &[u8], line: &mut [u8], room: &mut [u8], n: usize) -> usize
    requires { (most ≤ length held.now) × (most_printed ≤ length line.old) }
    ensures value { result ≡ min (n + length (close_out (state term held.now))) 9223372036854775808 }
    ensures room_after { room.new ≡ sets room.old n (close_out (state term held.now)) }
{
    // The rooms are long enough.
    let Ok(k) = term::close(term, held, line) else {
        unreachable!();
    };
    copy::copy(&line[..k], room, n);
    more(n, k)
}

// Writes as much of a text's report as there is room for, and counts it.
fn write_all(text: &[u8], held: &mut [u8], line: &mut [u8], room: &mut [u8]) -> usize
    requires { (most ≤ length held.old) × (most_printed ≤ length line.old) }
    ensures { Filling text.now room.old room.new result }
{
    let mut now = Term::new();
    let mut at: usize = 0;
    let mut n: usize = 0;
    // How far a turn goes is what the call takes, so no iterator counts the turns.
    while at < text.len() {
        let p = write_some(now, &text[at..], held, line, room, n);
        now = p.term;
        at += p.used;
        n = p.count;
    }
    write_last(now, held, line, room, n)
}

// The same, in rooms of its own.
fn fill(text: &[u8], room: &mut [u8]) -> usize
    ensures { Filling text.now room.old room.new result }
{
    let mut held = held();
    let mut line = printed();
    write_all(text, &mut held, &mut line, room)
}

// How long the report is; 0 where the room is long enough for any: then nothing is to be counted.
fn needed(text: &[u8], room: usize) -> usize
    ensures { Measured text.now room result }
{
    if enough::is_enough(text, room) {
        return 0;
    }
    let mut none = [0u8; 1];
    fill(text, &mut none)
}

// The whole report of a text: how many bytes were written, or 11 with how many are needed. A refusal writes nothing.
pub fn report_text(text: &[u8], room: &mut [u8]) -> Result<usize, ViewError>
    ensures result_value { viewed_of result ≡ report_answer text.now room.old }
    ensures room_after { room.new ≡ report_room text.now room.old }
{
    let n = needed(text, room.len());
    if HIGHEST < n {
        return Err(ViewError::NoRoom(HIGHEST));
    }
    if room.len() < n {
        return Err(ViewError::NoRoom(n));
    }
    Ok(fill(text, room))
}
