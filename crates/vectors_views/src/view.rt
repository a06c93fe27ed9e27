// One view over a short image. A line holds where the call answers and leaves what the line says. A small letter asks for the view of the
// large one in wrapping mode.
use crate::line::Line;
use crate::rings;

const UNWRAPPED: u32 = 0;

const WRAPPING: u32 = 1;

// What stands in the lent rooms before.
pub const OLD_BYTE: u8 = 9;

pub const OLD_PLACE: u32 = 9;

// What a view is asked of.
#[derive(Clone, Copy)]
struct View<'a> {
    image: &'a [u8],
    marks: &'a [u8],
    position: u32,
}

impl View<'_> {
    // The number that the call of a letter answers, if it has one. A data run has the marks for its mask.
    fn ask(
        &self,
        letter: u8,
        mode: u32,
        bytes: &mut [u8],
        places: &mut [u32],
        answer: &mut [i64; 5],
    ) -> Option<u32> {
        let image = self.image;
        let marks = self.marks;
        let p = self.position;
        match letter {
            b'M' => Some(pottagewing::pw_mask(image, marks, bytes, answer)),
            b'L' | b'l' => Some(pottagewing::pw_target_marks(mode, image, marks, bytes, answer)),
            b'O' => Some(pottagewing::pw_overlaps(image, marks, p, places, answer)),
            b'A' | b'a' => Some(pottagewing::pw_arrivals(mode, image, marks, p, places, answer)),
            b'B' => Some(pottagewing::pw_data_run(image, marks, p, answer)),
            _ => None,
        }
    }
}

fn short_holds(line: &Line, mode: u32) -> bool {
    let [n, k, m] = line.lengths();
    if n.max(k).max(m) > 10 {
        return false;
    }
    let view = View {
        image: &line.image()[..n],
        marks: &line.marks()[..k],
        position: line.position(),
    };
    let mut bytes = [OLD_BYTE; 10];
    let mut places = [OLD_PLACE; 10];
    let mut answer = [0; 5];
    let number = view.ask(
        line.letter,
        mode,
        &mut bytes[..m],
        &mut places[..m],
        &mut answer,
    );
    number == Some(line.number())
        && answer[0] == line.value()
        && bytes.as_slice() == line.bytes()
        && places
            .iter()
            .zip(line.places())
            .all(|(p, b)| *p == u32::from(*b))
}

pub fn holds(line: &Line) -> bool {
    let mode = if line.letter.is_ascii_lowercase() {
        WRAPPING
    } else {
        UNWRAPPED
    };
    match line.letter {
        b'T' | b't' => rings::target_marks_hold(line, mode),
        b'F' | b'f' => rings::arrivals_hold(line, mode),
        _ => short_holds(line, mode),
    }
}
