// One position taken up.
ghost use Rattle.std.specs.Prelude.{◌≡◌, [], ◌∷◌};
ghost use Rattle.reach.specs.Note.{note, fresh};
ghost use Rattle.targets.specs.Ways.{places_in};
ghost use Rattle.marks.specs.Taken.{going_to, TakenUp};

use crate::mark::Mark;
use crate::{exempt, note};
use targets::Places;

// The new mark, and what became waiting.
#[derive(Clone, Copy)]
pub struct Taken {
    pub mark: u8,
    pub noted: Places,
}

impl Taken {
    pub fn new(mark: u8, noted: Places) -> Self
        ensures { (result.mark ≡ mark) × (result.noted ≡ noted) }
    {
        Self { mark, noted }
    }
}

// Notes one position: it, where it became waiting.
pub fn note_place(marks: &mut [u8], n: usize, t: u32) -> Places
    ensures result_value { places_in result ≡ fresh n (t ∷ []) marks.old }
    ensures marks_after { marks.new ≡ note n (t ∷ []) marks.old }
{
    if note::note_one(marks, n, t) {
        return Places::First(t);
    }
    Places::Nothing
}

// Two positions, the first before the second.
fn note_both(marks: &mut [u8], n: usize, s: u32, t: u32) -> Places
    ensures result_value { places_in result ≡ fresh n (s ∷ t ∷ []) marks.old }
    ensures marks_after { marks.new ≡ note n (s ∷ t ∷ []) marks.old }
{
    match (note::note_one(marks, n, s), note::note_one(marks, n, t)) {
        (true, true) => Places::Both(s, t),
        (true, false) => Places::First(s),
        (false, true) => Places::First(t),
        (false, false) => Places::Nothing,
    }
}

// These positions noted, in their order.
fn note_all(marks: &mut [u8], n: usize, ps: Places) -> Places
    ensures result_value { places_in result ≡ fresh n (places_in ps) marks.old }
    ensures marks_after { marks.new ≡ note n (places_in ps) marks.old }
{
    match ps {
        Places::Nothing => Places::Nothing,
        Places::First(s) => note_place(marks, n, s),
        Places::Both(s, t) => note_both(marks, n, s, t),
    }
}

// Takes up p, where these are the targets: it is traced, and they are noted. What became waiting is answered.
pub fn take_up(image: &[u8], marks: &mut [u8], p: u32, to: Places) -> Taken
    ensures { TakenUp (going_to image.now (places_in to)) marks.old p result marks.new }
{
    if exempt::is_exempt(image, marks, p) {
        Mark::put(marks, p, Mark::FLASH);
        return Taken {
            mark: Mark::FLASH,
            noted: Places::Nothing,
        };
    }
    Mark::put(marks, p, Mark::TRACED);
    let noted = note_all(marks, image.len(), to);
    Taken {
        mark: Mark::TRACED,
        noted,
    }
}
