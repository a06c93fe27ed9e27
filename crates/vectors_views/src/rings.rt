// Target marks and arrivals of an image of the longest length, over the end of memory. The ten bytes of a line are the last five of the image
// and then the first five, with their marks. All others are Ret and untouched.
ghost use Rattle.std.specs.Prelude.{◌≡◌, length};

use crate::line::Line;
use crate::view;
use runner::ring;

// As many bytes as there are in memory.
const LONGEST: usize = 65_536;

// The rooms have this length by contract, so that no slip in the number above is compiled.
fn filled(byte: u8) -> [u8; LONGEST]
    ensures { 65536 ≡ length result }
{
    runner::filled(byte)
}

const RET: u8 = 0xA0;

// The answer's value is the length of the image, which no byte of a line can tell. Neither of these two is compiled into its caller, so that a
// list without such lines takes no stack for their images.
#[inline(never)]
pub fn target_marks_hold(line: &Line, mode: u32) -> bool {
    let mut image = filled(RET);
    ring::lay(line.image(), &mut image);
    let mut marks = filled(0);
    ring::lay(line.marks(), &mut marks);
    let mut room = filled(view::OLD_BYTE);
    let mut answer = [0; 5];
    let number = pottagewing::pw_target_marks(mode, &image, &marks, &mut room, &mut answer);
    number == 0
        && line.number() == 0
        && answer[0] == 65_536
        && ring::between(&room).iter().all(|b| *b == 0)
        && ring::has_ends(&room, line.bytes())
}

// The position that a byte of a line tells: of the last five it is the low byte.
fn place(b: u8) -> u32 {
    match b {
        251.. => u32::from(b) + 65_280,
        _ => u32::from(b),
    }
}

#[inline(never)]
pub fn arrivals_hold(line: &Line, mode: u32) -> bool {
    let mut image = filled(RET);
    ring::lay(line.image(), &mut image);
    let mut marks = filled(0);
    ring::lay(line.marks(), &mut marks);
    let mut places = [view::OLD_PLACE; 10];
    let mut answer = [0; 5];
    let p = line.position();
    let number = pottagewing::pw_arrivals(mode, &image, &marks, p, &mut places, &mut answer);
    number == line.number()
        && answer[0] == line.value()
        && places
            .iter()
            .zip(line.places())
            .all(|(p, b)| *p == place(*b))
}
