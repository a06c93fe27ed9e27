// The exported calls that a line can ask for. A line holds where the call is given what the line says and answers what it says. A small
// letter asks for the call of the large one in wrapping mode.
use crate::line::Line;
use crate::narrow::narrow;
use crate::traces::Way;
use crate::{rings, traces};

const UNWRAPPED: u32 = 0;

const WRAPPING: u32 = 1;

pub fn same(numbers: &[i64; 11], given: [i64; 5], number: u32, answer: [i64; 5]) -> bool {
    let [a, b, c, d, e] = given;
    let [p, q, r, s, t] = answer;
    *numbers == [a, b, c, d, e, i64::from(number), p, q, r, s, t]
}

fn decode(numbers: &[i64; 11]) -> bool {
    let n: u8 = narrow(numbers[0]);
    let bytes: [u8; 3] = [narrow(numbers[1]), narrow(numbers[2]), narrow(numbers[3])];
    let Some(lent) = bytes.get(..usize::from(n)) else {
        return false;
    };
    let mut answer = [0; 5];
    let number = pottagewing::pw_decode(lent, &mut answer);
    let [a, b, c] = bytes.map(i64::from);
    same(numbers, [i64::from(n), a, b, c, 0], number, answer)
}

// A first byte and three operands, as they came out of a line.
#[derive(Clone, Copy)]
struct Parts {
    first: u8,
    a: i32,
    b: i32,
    c: i32,
}

impl Parts {
    fn of(numbers: &[i64; 11]) -> Self {
        Self {
            first: narrow(numbers[0]),
            a: narrow(numbers[1]),
            b: narrow(numbers[2]),
            c: narrow(numbers[3]),
        }
    }

    // What a call was given, with the fifth number.
    fn given(&self, last: i64) -> [i64; 5] {
        [
            i64::from(self.first),
            i64::from(self.a),
            i64::from(self.b),
            i64::from(self.c),
            last,
        ]
    }
}

fn encode(numbers: &[i64; 11]) -> bool {
    let parts = Parts::of(numbers);
    let n: u8 = narrow(numbers[4]);
    let mut out = [0; 8];
    let Some(lent) = out.get_mut(..usize::from(n)) else {
        return false;
    };
    let mut answer = [0; 5];
    let number = pottagewing::pw_encode(parts.first, parts.a, parts.b, parts.c, lent, &mut answer);
    if number == 0 {
        let [a, b, c, ..] = out.map(i64::from);
        answer[1] = a;
        answer[2] = b;
        answer[3] = c;
    }
    same(numbers, parts.given(i64::from(n)), number, answer)
}

fn resolve(mode: u32, numbers: &[i64; 11]) -> bool {
    let parts = Parts::of(numbers);
    let base: u32 = narrow(numbers[4]);
    let mut answer = [0; 5];
    let number = pottagewing::pw_resolve(
        mode,
        parts.first,
        parts.a,
        parts.b,
        parts.c,
        base,
        &mut answer,
    );
    same(numbers, parts.given(i64::from(base)), number, answer)
}

fn targets(mode: u32, numbers: &[i64; 11]) -> bool {
    let parts = Parts::of(numbers);
    let position: u32 = narrow(numbers[4]);
    let mut answer = [0; 5];
    let number = pottagewing::pw_targets(
        mode,
        position,
        parts.first,
        parts.a,
        parts.b,
        parts.c,
        &mut answer,
    );
    same(numbers, parts.given(i64::from(position)), number, answer)
}

pub fn holds(line: &Line) -> bool {
    let letter = line.letter;
    let numbers = &line.numbers;
    let mode = if letter.is_ascii_lowercase() {
        WRAPPING
    } else {
        UNWRAPPED
    };
    match letter {
        b'D' => decode(numbers),
        b'E' => encode(numbers),
        b'R' | b'r' => resolve(mode, numbers),
        b'T' | b't' => targets(mode, numbers),
        b'G' | b'g' => traces::holds(Way::Run, false, mode, numbers),
        b'W' | b'w' => traces::holds(Way::Sweep, false, mode, numbers),
        b'N' | b'n' => traces::holds(Way::Run, true, mode, numbers),
        b'U' | b'u' => traces::holds(Way::Sweep, true, mode, numbers),
        b'O' | b'o' => rings::holds(Way::Run, mode, numbers),
        b'S' | b's' => rings::holds(Way::Sweep, mode, numbers),
        b'P' | b'p' => rings::holds(Way::Step, mode, numbers),
        _ => false,
    }
}
