// Starting afresh from entries.
ghost use Rattle.std.specs.Prelude.{◌≡◌, ◌≤◌, length};
ghost use Rattle.reach.specs.Note.{note, fresh};
ghost use Rattle.trace.specs.Start.{started_of, start_answer, start_marks};

use crate::begin;
use marks::SizeError;

// Notes the entries in their order: how many became waiting.
fn note_entries(marks: &mut [u8], n: usize, entries: &[u32]) -> usize
    ensures value { result ≡ length (fresh n entries.now marks.old) }
    ensures marks_after { marks.new ≡ note n entries.now marks.old }
{
    let mut set: usize = 0;
    for t in entries {
        if marks::note_one(marks, n, *t) {
            set += 1;
        }
    }
    set
}

// Clears the marks, and sets those of the pinned positions and of the entries inside the image; one that is both stays pinned. The number of
// positions set is answered.
pub fn start(
    image: &[u8],
    marks: &mut [u8],
    entries: &[u32],
    pins: &[u32],
) -> Result<u32, SizeError>
    ensures result_value { started_of result ≡ start_answer image.now marks.old entries.now pins.now }
    ensures marks_after { marks.new ≡ start_marks image.now marks.old entries.now pins.now }
{
    marks::check_sizes(image, marks)?;
    let n = image.len();
    begin::begin(marks, n, pins);
    Ok(note_entries(marks, n, entries) as u32)
}
