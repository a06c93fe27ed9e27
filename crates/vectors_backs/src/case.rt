// What the lines of a case say, and whether it holds.
ghost use Rattle.std.specs.Prelude.{◌≡◌, ◌≤◌, length};

use crate::answers;
use instruction::Mode;
use read_back::RestoreError;
use runner::{Entries, Tally};
use text::{bytes, cut, four};

// A room longer than any of the list; and where the marks begin in what is wanted, after the image.
pub const HALF: usize = 70_000;

// The room has this length by contract, so that no slip in the number above is compiled.
fn room() -> [u8; HALF]
    ensures { 70000 ≡ length result }
{
    runner::filled(answers::OLD)
}

#[derive(Clone, Copy)]
struct Case {
    // Where its text ends.
    text: usize,
    // The length lent.
    length: usize,
    // How long the two rooms are.
    image: usize,
    marks: usize,
    mode: Mode,
}

impl Case {
    // Before its first line.
    const NEW: Self = Self {
        text: 0,
        length: 0,
        image: 0,
        marks: 0,
        mode: Mode::Unwrapped,
    };

    // The call, in rooms of the lengths that the case has. No case has rooms longer than ours, so the answer of a short one holds in none.
    fn ask(&self, text: &[u8], image: &mut [u8], marks: &mut [u8]) -> Result<usize, RestoreError> {
        let Some(image) = image.get_mut(..self.image) else {
            return Err(RestoreError::NoRoom(0));
        };
        let Some(marks) = marks.get_mut(..self.marks) else {
            return Err(RestoreError::NoRoom(0));
        };
        read_back::read_back(self.mode, text, self.length, image, marks)
    }
}

// Eight hex digits.
fn number(digits: &[u8]) -> usize {
    let high = four::four_of(digits) as usize;
    match digits.get(4..) {
        Some(low) => high * 65_536 + four::four_of(low) as usize,
        None => high,
    }
}

// Bytes in hex, at a place and as far as there is room: where they end.
fn put_bytes(digits: &[u8], at: usize, room: &mut [u8]) -> usize {
    bytes::put(digits, room, at);
    at.saturating_add(digits.len() / 2).min(room.len().max(at))
}

// A part of what is wanted. Four digits say where the bytes after them stand, from a beginning on.
fn want(from: usize, rest: &[u8], wanted: &mut [u8])
    requires { from ≤ 70000 }
{
    if let Some((place, digits)) = rest.split_at_checked(4) {
        bytes::put(digits, wanted, from + four::four_of(place) as usize);
    }
}

impl Case {
    // A line whose letter has no meaning says nothing.
    fn read(&mut self, letter: u8, rest: &[u8], text: &mut [u8], wanted: &mut [u8]) {
        let number = number(rest);
        match letter {
            b'T' => {
                let end = runner::copy(rest, self.text, text);
                self.text = runner::copy(&[cut::LINE_END], end, text);
            }
            b'H' => self.text = put_bytes(rest, self.text, text),
            b'B' => want(0, rest, wanted),
            b'M' => want(HALF, rest, wanted),
            b'N' => {
                self.length = number;
                self.image = number;
                self.marks = number;
            }
            b'R' => self.image = number,
            b'K' => self.marks = number,
            b'W' => self.mode = Mode::Wrapping,
            _ => {}
        }
    }
}

fn holds(
    c: Case,
    answer: Result<usize, RestoreError>,
    text: &[u8],
    wanted: &[u8; 140_000],
) -> bool {
    let Some(text) = text.get(..c.text) else {
        return false;
    };
    let mut image = room();
    let mut marks = room();
    let told = c.ask(text, &mut image, &mut marks);
    let n = if answer.is_ok() { c.length } else { 0 };
    told == answer
        && answers::is_first(c.mode, text, answer)
        && answers::is_left(&image, &wanted[..HALF], n)
        && answers::is_left(&marks, &wanted[HALF..], n)
}

// How many cases of a list hold. After its last line a case begins anew, and nothing is wanted.
pub fn replay(list: &[u8], text: &mut [u8], wanted: &mut [u8; 140_000]) -> Tally {
    let mut tally = Tally::default();
    let mut case = Case::NEW;
    for (letter, rest) in Entries(list) {
        match answers::wanted(letter, number(rest)) {
            Some(answer) => {
                tally.count(holds(case, answer, text, wanted));
                wanted.fill(0);
                case = Case::NEW;
            }
            None => case.read(letter, rest, text, wanted),
        }
    }
    tally
}
