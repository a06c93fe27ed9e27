// A trace of an image of the longest length over the end of memory, by a run, by sweeps or by one step. A line packs it as it does that of a
// short image. Its ten bytes are the last five of the image and then the first five, all others are Ret; the ten positions of the order list
// and of the marks are the same ten, and no other is to be come to.
ghost use Rattle.std.specs.Prelude.{◌≡◌, length};

use crate::narrow::{hex_digits, narrow};
use crate::traces;
use crate::traces::{OLD_MARK, OLD_PLACE, PAST, Trace, Way};
use runner::ring;

// As many bytes as there are in memory.
const LONGEST: usize = 65_536;

const RET: u8 = 0xA0;

// The rooms have this length by contract, so that no slip in `LONGEST` is compiled.
fn image_room() -> [u8; LONGEST]
    ensures { 65536 ≡ length result }
{
    runner::filled(RET)
}

fn marks_room() -> [u8; LONGEST]
    ensures { 65536 ≡ length result }
{
    runner::filled(OLD_MARK)
}

fn order_room() -> [u32; LONGEST]
    ensures { 65536 ≡ length result }
{
    runner::filled(OLD_PLACE)
}

// What stands in the order list for a digit of a line: the position of a place, or what stood there before.
fn noted(digit: u8) -> u32 {
    match digit {
        0..=4 => u32::from(digit) + 65_531,
        5..=9 => u32::from(digit) - 5,
        _ => OLD_PLACE,
    }
}

// The ten marks are the digits of this number, and all other positions are untouched.
fn are_marks(marks: &[u8; LONGEST], values: i64) -> bool {
    ring::has_ends(marks, &hex_digits(values)) && ring::between(marks).iter().all(|m| *m == 0)
}

// The list begins with the positions that the digits of this number stand for, and the rest of it stays.
fn is_order(order: &[u32; LONGEST], places: i64) -> bool {
    order.starts_with(&hex_digits(places).map(noted)) && order[10..].iter().all(|p| *p == OLD_PLACE)
}

// Whether the call answers and leaves what the line says.
pub fn holds(way: Way, mode: u32, numbers: &[i64; 11]) -> bool {
    let a: u32 = narrow(numbers[3]);
    let b: u32 = narrow(numbers[4]);
    let trace = Trace {
        way,
        mode,
        entries: [a, b],
        pins: [PAST; 2],
    };
    let mut image = image_room();
    ring::lay(&traces::image(numbers[1], numbers[2]), &mut image);
    let mut marks = marks_room();
    let mut order = order_room();
    let mut answer = [0; 5];
    let number = trace.ask(&image, &mut marks, &mut order, &mut answer);
    are_marks(&marks, numbers[10])
        && is_order(&order, numbers[9])
        && traces::told(numbers, 10, a, b, number, &answer)
}
