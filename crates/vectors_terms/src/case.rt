// What the lines of a case say, and whether it holds.
ghost use Rattle.std.specs.Prelude.{◌<◌};

use crate::blocks;
use report_text::Term;
use runner::call::{Call, CallError};
use runner::{Entries, Numeral, Tally, call};
use views::ViewError;

// What is given stands in one room: the text, then the output's beginning.
#[derive(Clone, Copy)]
struct Case {
    // Where each of the two ends.
    text: usize,
    told: usize,
    // How often the next part is meant.
    times: usize,
    // The output's checksum.
    sum: usize,
}

impl Case {
    // Before its first line.
    const NEW: Self = Self {
        text: 0,
        told: 0,
        times: 1,
        sum: 0,
    };
}

// The report of a whole text.
#[derive(Clone, Copy)]
struct Report<'a>(&'a [u8]);

impl Call for Report<'_> {
    fn write(&self, room: &mut [u8]) -> Result<usize, CallError> {
        match report_text::report_text(self.0, room) {
            Ok(n) => Ok(n),
            Err(ViewError::NoRoom(n)) => Err(CallError::NoRoom(n)),
            Err(_) => Err(CallError::Other),
        }
    }
}

// The byte that a character stands for.
fn meant(b: u8) -> u8 {
    match b {
        b'T' => 9,
        b'$' => b'T',
        b'|' => 10,
        b'!' => 0,
        b'^' => 13,
        b'_' => 32,
        b'*' => 255,
        _ => b,
    }
}

// Puts the bytes that the characters of a text stand for at a place, as far as there is room: the next place.
fn put_meant(text: &[u8], at: usize, given: &mut [u8]) -> usize {
    let end = runner::copy(text, at, given);
    if let Some(copied) = given.get_mut(at..end) {
        for b in copied {
            *b = meant(*b);
        }
    }
    end
}

fn number(digits: &[u8]) -> usize {
    runner::number_by(digits, Numeral::Decimal)
}

// Nothing where there is no such part.
fn part(given: &[u8], from: usize, to: usize) -> &[u8] {
    given.get(from..to).unwrap_or(&[])
}

// What a case says: a text, what its report begins with, and the report's checksum.
#[derive(Clone, Copy)]
struct Told<'a> {
    text: &'a [u8],
    told: &'a [u8],
    sum: usize,
}

impl Told<'_> {
    fn is_output(&self, output: &[u8]) -> bool {
        runner::checksum(output) as usize == self.sum && output.starts_with(self.told)
    }

    // The text whole.
    fn is_whole(&self, need: usize, room: &mut [u8]) -> bool {
        let report = Report(self.text);
        call::is_refused(&report, need, room)
            && call::is_written(&report, need, room)
            && self.is_output(part(room, 0, need))
    }

    // The text in blocks of a size.
    fn is_cut(&self, size: usize, need: usize, room: &mut [u8]) -> bool
        requires { 0 < size }
    {
        blocks::report(Term::new(), size, self.text, room) == Some(need)
            && self.is_output(part(room, 0, need))
    }

    // All of these, where the output is so long.
    fn holds(&self, need: usize, room: &mut [u8]) -> bool {
        self.is_whole(need, room)
            && self.is_cut(1, need, room)
            && self.is_cut(2, need, room)
            && self.is_cut(7, need, room)
            && self.is_cut(self.text.len().max(1), need, room)
    }
}

impl Case {
    // Puts a part as often as it is meant, or until no more of it is put: where what is given ends.
    fn put(&self, rest: &[u8], given: &mut [u8]) -> usize {
        let mut end = self.told;
        for _ in 0..self.times {
            let next = put_meant(rest, end, given);
            if next == end {
                return end;
            }
            end = next;
        }
        end
    }

    // A line whose letter has no meaning says nothing.
    fn read(&mut self, letter: u8, rest: &[u8], given: &mut [u8]) {
        match letter {
            b'T' => {
                self.told = self.put(rest, given);
                self.text = self.told;
            }
            b'X' => self.told = self.put(rest, given),
            b'S' => self.sum = number(rest),
            _ => {}
        }
        self.times = if letter == b'N' { number(rest) } else { 1 };
    }

    // What is told of the text that is given.
    fn told<'a>(&self, given: &'a [u8]) -> Told<'a> {
        Told {
            text: part(given, 0, self.text),
            told: part(given, self.text, self.told),
            sum: self.sum,
        }
    }
}

// How many cases of a list hold. After its last line, whose number says how long the output is, a case begins anew.
pub fn replay(list: &[u8], given: &mut [u8], room: &mut [u8]) -> Tally {
    let mut tally = Tally::default();
    let mut case = Case::NEW;
    for (letter, rest) in Entries(list) {
        if letter == b'=' {
            tally.count(case.told(given).holds(number(rest), room));
            case = Case::NEW;
        } else {
            case.read(letter, rest, given);
        }
    }
    tally
}
