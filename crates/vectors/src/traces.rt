// A whole trace of a short image from two entries, by a run or by sweeps. A line packs it into its numbers: ten bytes of image, five to a
// number, and afterwards the order list and the marks, a hex digit for each position.
use crate::calls;
use crate::narrow::{hex_digits, narrow};

// What stands in the lent memory before the run.
pub const OLD_MARK: u8 = 9;

pub const OLD_PLACE: u32 = 15;

const NO_LIMIT: u32 = 0xFFFF_FFFF;

// Past every image: a pin there is skipped.
pub const PAST: u32 = 65_536;

// No line has this number.
const OTHER: u32 = 255;

// By which calls an image is traced: a run, sweeps, or a start and a step at the first entry.
#[derive(Clone, Copy)]
pub enum Way {
    Run,
    Sweep,
    Step,
}

// What a trace is asked for.
#[derive(Clone, Copy)]
pub struct Trace {
    pub way: Way,
    pub mode: u32,
    pub entries: [u32; 2],
    pub pins: [u32; 2],
}

impl Trace {
    // The number that the call answers.
    pub fn ask(
        &self,
        image: &[u8],
        marks: &mut [u8],
        order: &mut [u32],
        answer: &mut [i64; 5],
    ) -> u32 {
        let mode = self.mode;
        let entries = &self.entries;
        let pins = &self.pins;
        match self.way {
            Way::Run => {
                pottagewing::pw_run(mode, image, marks, order, entries, pins, NO_LIMIT, answer)
            }
            Way::Sweep => pottagewing::pw_sweep(mode, image, marks, entries, pins, answer),
            Way::Step => {
                pottagewing::pw_start(image, marks, entries, pins, answer);
                pottagewing::pw_step(mode, image, marks, entries[0], answer)
            }
        }
    }
}

// The five lowest bytes of a number.
fn five(z: i64) -> [u8; 5] {
    let n: u64 = narrow(z);
    let [_, _, _, a, b, c, d, e] = n.to_be_bytes();
    [a, b, c, d, e]
}

// The bytes of two numbers, five of each.
pub fn image(first: i64, second: i64) -> [u8; 10] {
    let mut bytes = [0; 10];
    bytes[..5].copy_from_slice(&five(first));
    bytes[5..].copy_from_slice(&five(second));
    bytes
}

// A number below 0 packs nothing.
pub fn told(numbers: &[i64; 11], n: u8, a: u32, b: u32, number: u32, answer: &[i64; 5]) -> bool {
    if numbers[1] < 0 || numbers[2] < 0 {
        return false;
    }
    let given = [
        i64::from(n),
        numbers[1],
        numbers[2],
        i64::from(a),
        i64::from(b),
    ];
    let values = [answer[0], answer[1], answer[2], numbers[9], numbers[10]];
    calls::same(numbers, given, number, values)
}

// Whether a run, or sweeps, answer and leave what the line says: the order list, which sweeps do not have, and the marks. It gives two
// entries, or an entry and a pin, which are each told twice.
pub fn holds(way: Way, pinned: bool, mode: u32, numbers: &[i64; 11]) -> bool {
    let n: u8 = narrow(numbers[0]);
    let a: u32 = narrow(numbers[3]);
    let b: u32 = narrow(numbers[4]);
    let bytes = image(numbers[1], numbers[2]);
    let Some(image) = bytes.get(..usize::from(n)) else {
        return false;
    };
    let (entries, pins) = if pinned {
        ([a, a], [b, b])
    } else {
        ([a, b], [PAST, PAST])
    };
    let trace = Trace {
        way,
        mode,
        entries,
        pins,
    };
    let mut marks = [OLD_MARK; 10];
    let mut order = [OLD_PLACE; 10];
    let mut answer = [0; 5];
    let number = trace.ask(image, &mut marks, &mut order, &mut answer);
    let is_left = order == hex_digits(numbers[9]).map(u32::from)
        && marks == hex_digits(numbers[10]);
    told(
        numbers,
        n,
        a,
        b,
        if is_left { number } else { OTHER },
        &answer,
    )
}
