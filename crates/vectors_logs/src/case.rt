// What the lines of a case say, and whether it holds.
ghost use Rattle.std.specs.Prelude.{◌≡◌, ◌≤◌, length};

use crate::log::Lent;
use crate::number;
use instruction::Mode;
use marks::SizeError;
use replay::{ReplayError, Totals};
use runner::{Entries, Tally};
use text::{bytes, cut};
use views::ViewError;

// Where the marks begin in what is given, after the image, and more counts than any case has.
pub const HALF: usize = 70_000;

// A count before, where no other is told.
pub const OLD: u64 = 7;

// The counts now. The room has this length by contract, so that no slip in `HALF` is compiled.
fn now_room() -> [u64; HALF]
    ensures { 70000 ≡ length result }
{
    runner::filled(0)
}

#[derive(Clone, Copy)]
struct Case {
    // Where its log ends.
    text: usize,
    // How long the image is, and how many marks, counts and entries are lent.
    length: usize,
    marks: usize,
    counts: usize,
    entries: usize,
    mode: Mode,
}

impl Case {
    // Before its first line.
    const NEW: Self = Self {
        text: 0,
        length: 0,
        marks: 0,
        counts: 0,
        entries: 0,
        mode: Mode::Unwrapped,
    };
}

// The case that is being read, its log, its image and marks, its entries, the counts before and those that are wanted.
#[derive(Drop)]
pub struct List<'a> {
    case: Case,
    text: &'a mut [u8],
    given: &'a mut [u8],
    entries: &'a mut [u32],
    before: &'a mut [u64],
    after: &'a mut [u64],
}

// A last line's letter says which answer is wanted, and its numbers what the answer holds.
fn wanted(letter: u8, rest: &[u8]) -> Option<Result<Totals, ReplayError>> {
    let a = number::of(rest);
    let n = a as usize;
    let k = u64::from(a);
    let error = match letter {
        b'w' => {
            return Some(Ok(Totals {
                lines: k,
                interrupts: u64::from(number::of(number::after(rest, 8))),
                free: u64::from(number::of(number::after(rest, 16))),
            }));
        }
        b'l' => ReplayError::View(ViewError::Size(SizeError::LongImage(n))),
        b's' => ReplayError::View(ViewError::Size(SizeError::ShortMarks(n))),
        b'd' => ReplayError::View(ViewError::Damaged(a)),
        b'r' => ReplayError::View(ViewError::NoRoom(n)),
        b'm' => ReplayError::Malformed(k),
        b'u' => ReplayError::Untraced(k),
        b'f' => ReplayError::Forbidden(k),
        b'o' => ReplayError::Full(k),
        _ => return None,
    };
    Some(Err(error))
}

// Bytes in hex, at a place and as far as there is room: where they end.
fn put_bytes(digits: &[u8], at: usize, room: &mut [u8]) -> usize {
    bytes::put(digits, room, at);
    at.saturating_add(digits.len() / 2).min(room.len().max(at))
}

fn set(counts: &mut [u64], at: usize, count: u64) {
    if let Some(place) = counts.get_mut(at) {
        *place = count;
    }
}

impl<'a> List<'a> {
    pub fn new(
        text: &'a mut [u8],
        given: &'a mut [u8],
        entries: &'a mut [u32],
        before: &'a mut [u64],
        after: &'a mut [u64],
    ) -> Self {
        Self {
            case: Case::NEW,
            text,
            given,
            entries,
            before,
            after,
        }
    }

    // A part of the image or of the marks, from a beginning on: four digits say where its bytes stand.
    fn give(&mut self, from: usize, rest: &[u8])
        requires { from ≤ 70000 }
    {
        bytes::put(
            number::after(rest, 4),
            self.given,
            from + number::place(rest),
        );
    }

    // A count at the place that four digits say. A count before is wanted too, as long as no other is told.
    fn tell(&mut self, is_before: bool, rest: &[u8]) {
        let at = number::place(rest);
        let count = number::long_of(number::after(rest, 4));
        if is_before {
            set(self.before, at, count);
        }
        set(self.after, at, count);
    }

    // One entry more.
    fn enter(&mut self, entry: u32) {
        self.case.entries = runner::copy(&[entry], self.case.entries, self.entries);
    }

    // A line whose letter has no meaning says nothing.
    fn read(&mut self, letter: u8, rest: &[u8]) {
        let value = number::of(rest);
        let number = value as usize;
        match letter {
            b'T' => {
                let end = runner::copy(rest, self.case.text, self.text);
                self.case.text = runner::copy(&[cut::LINE_END], end, self.text);
            }
            b'H' => self.case.text = put_bytes(rest, self.case.text, self.text),
            b'B' => self.give(0, rest),
            b'M' => self.give(HALF, rest),
            b'E' => self.enter(value),
            b'V' => self.tell(true, rest),
            b'X' => self.tell(false, rest),
            b'N' => {
                self.case.length = number;
                self.case.marks = number;
                self.case.counts = number;
            }
            b'K' => self.case.marks = number,
            b'C' => self.case.counts = number,
            b'W' => self.case.mode = Mode::Wrapping,
            _ => {}
        }
    }

    // As much of what is given as the case lends.
    fn lent(&self) -> Option<Lent<'_>> {
        let c = self.case;
        let (image, marks) = self.given.split_at_checked(HALF)?;
        Some(Lent {
            mode: c.mode,
            text: self.text.get(..c.text)?,
            image: image.get(..c.length)?,
            marks: marks.get(..c.marks)?,
            entries: self.entries.get(..c.entries)?,
            before: self.before.get(..c.counts)?,
            after: self.after.get(..c.counts)?,
        })
    }

    fn holds(&self, wanted: Result<Totals, ReplayError>) -> bool {
        let mut now = now_room();
        let Some(now) = now.get_mut(..self.case.counts) else {
            return false;
        };
        self.lent().is_some_and(|lent| lent.holds(wanted, now))
    }
}

// How many cases of a list hold. After its last line a case begins anew, with nothing given and no count told.
pub fn replay(list: &[u8], cases: &mut List) -> Tally {
    let mut tally = Tally::default();
    for (letter, rest) in Entries(list) {
        match wanted(letter, rest) {
            Some(wanted) => {
                tally.count(cases.holds(wanted));
                cases.given.fill(0);
                cases.before.fill(OLD);
                cases.after.fill(OLD);
                cases.case = Case::NEW;
            }
            None => cases.read(letter, rest),
        }
    }
    tally
}
