// Whether a room is surely long enough for the report of a text, however long that is: then it need not be counted first.
ghost use Rattle.std.specs.Prelude.{true, ◌≡◌, min, ◌≤◌, length};
ghost use Rattle.report_text.specs.Report.{highest, report_of};

use crate::empty;

// A report that is longer is not written: an answer holds no number over it.
pub const HIGHEST: usize = 0x7FFF_FFFF_FFFF_FFFF;

// The bytes that the line of an image has at most: a name of 32, six figures of 5 with a tab each, and byte 10.
const MOST: usize = 69;

// And the last line: eight numbers of 20.
const MOST_LAST: usize = 170;

// There is at most one image more than there are empty lines.
pub fn is_enough(text: &[u8], room: usize) -> bool
    ensures { result ≡ true → length (report_of text.now) ≤ min room highest }
{
    if HIGHEST < room {
        return false;
    }
    if room < MOST + MOST_LAST {
        return false;
    }
    empty::empty_lines(text) <= (room - MOST - MOST_LAST) / MOST
}
