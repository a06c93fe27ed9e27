// Noting positions in marks.
ghost use Rattle.std.specs.Prelude.{◌≡◌, [], ◌∷◌};
ghost use Rattle.reach.specs.Note.{note, is_open};

use crate::mark::Mark;

// Notes one position of an image of n bytes, which the marks may be longer or shorter than: whether it became waiting. One past the marks
// did, and changes nothing.
pub fn note_one(marks: &mut [u8], n: usize, t: u32) -> bool
    ensures value { result ≡ is_open n marks.old t }
    ensures marks_after { marks.new ≡ note n (t ∷ []) marks.old }
{
    if n <= t as usize || Mark::at(marks, t) != Mark::UNTOUCHED {
        return false;
    }
    Mark::put(marks, t, Mark::WAITING);
    true
}
