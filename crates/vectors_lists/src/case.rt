// What the lines of a case say, and whether it holds.
use crate::listings::{Listings, Output};
use instruction::Mode;
use runner::{Entries, Numeral, Tally, call};

// What is given stands in one room: the input or the image, then the marks or the words, then the output's beginning.
#[derive(Clone, Copy)]
struct Case {
    // Where each of the three ends.
    input: usize,
    marks: usize,
    told: usize,
    // How often the next part is meant.
    times: usize,
    // The first bad line of the input, or 0.
    bad: usize,
    // The output's checksum.
    sum: usize,
    mode: Mode,
}

impl Case {
    // Before its first line.
    const NEW: Self = Self {
        input: 0,
        marks: 0,
        told: 0,
        times: 1,
        bad: 0,
        sum: 0,
        mode: Mode::Unwrapped,
    };
}

// The byte that a character of a text stands for.
fn meant(b: u8) -> u8 {
    match b {
        b'T' => 9,
        b'|' => 10,
        b'!' => 0,
        b'^' => 13,
        b'_' => 32,
        b'*' => 255,
        _ => b,
    }
}

// Puts the bytes that the characters of a text stand for at a place, as far as there is room: the next place.
fn put_meant(text: &[u8], at: usize, given: &mut [u8]) -> usize {
    let end = runner::copy(text, at, given);
    if let Some(copied) = given.get_mut(at..end) {
        for b in copied {
            *b = meant(*b);
        }
    }
    end
}

// Nothing where there is no such part.
fn part(given: &[u8], from: usize, to: usize) -> &[u8] {
    given.get(from..to).unwrap_or(&[])
}

fn number(digits: &[u8]) -> usize {
    runner::number_by(digits, Numeral::Hex)
}

impl Case {
    // Puts a part as often as it is meant, or until no more of it is put: where what is given ends.
    fn put(&self, letter: u8, rest: &[u8], given: &mut [u8]) -> usize {
        let mut end = self.told;
        for _ in 0..self.times {
            let next = match letter {
                b'B' | b'M' => runner::put_hex(rest, end, given),
                _ => put_meant(rest, end, given),
            };
            if next == end {
                return end;
            }
            end = next;
        }
        end
    }

    // A line whose letter has no meaning says nothing.
    fn read(&mut self, letter: u8, rest: &[u8], given: &mut [u8]) {
        let number = number(rest);
        match letter {
            b'T' | b'B' => {
                self.told = self.put(letter, rest, given);
                self.input = self.told;
                self.marks = self.told;
            }
            b'M' | b'G' => {
                self.told = self.put(letter, rest, given);
                self.marks = self.told;
            }
            b'X' => self.told = self.put(letter, rest, given),
            b'L' => self.bad = number,
            b'S' => self.sum = number,
            b'W' => self.mode = Mode::Wrapping,
            _ => {}
        }
        self.times = if letter == b'N' { number } else { 1 };
    }
}

// The last letter says which output is meant, and its number how long it is.
fn holds(c: Case, output: Output, need: usize, given: &[u8], room: &mut [u8]) -> bool {
    let listings = Listings {
        output,
        mode: c.mode,
        input: part(given, 0, c.input),
        marks: part(given, c.input, c.marks),
    };
    if listings.bad_line() != c.bad {
        return false;
    }
    if need != 0 && !call::is_refused(&listings, need, room) {
        return false;
    }
    if !call::is_written(&listings, need, room) {
        return false;
    }
    let written = part(room, 0, need);
    runner::checksum(written) as usize == c.sum && written.starts_with(part(given, c.marks, c.told))
}

// How many cases of a list hold. After its last line a case begins anew.
pub fn replay(list: &[u8], given: &mut [u8], room: &mut [u8]) -> Tally {
    let mut tally = Tally::default();
    let mut case = Case::NEW;
    for (letter, rest) in Entries(list) {
        match Output::of(letter) {
            Some(output) => {
                tally.count(holds(case, output, number(rest), given, room));
                case = Case::NEW;
            }
            None => case.read(letter, rest, given),
        }
    }
    tally
}
