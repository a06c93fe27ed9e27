// A term in blocks.
ghost use Rattle.std.specs.Prelude.{◌<◌};

use crate::rooms;
use report_text::{Term, term};

// The record after a block, and where what was printed ends: as many calls as the block needs; none where one takes nothing or more than
// there is.
fn feed(
    before: (Term, usize),
    block: &[u8],
    held: &mut [u8],
    line: &mut [u8],
    room: &mut [u8],
) -> Option<(Term, usize)> {
    let (mut term, mut end) = before;
    let mut left = block;
    // How far a turn goes is what the call takes, so no iterator counts the turns.
    while !left.is_empty() {
        let taken = term::take(term, left, held, line).ok()?;
        term = taken.term;
        end = runner::copy(line.get(..taken.printed)?, end, room);
        if taken.used == 0 {
            return None;
        }
        left = left.get(taken.used..)?;
    }
    Some((term, end))
}

// What is printed of a text in blocks of a size, and at its end: how long it is.
pub fn report(before: Term, size: usize, text: &[u8], room: &mut [u8]) -> Option<usize>
    requires { 0 < size }
{
    let mut held = rooms::held();
    let mut line = rooms::printed();
    let mut fed = (before, 0);
    for block in text.chunks(size) {
        fed = feed(fed, block, &mut held, &mut line, room)?;
    }
    let (term, end) = fed;
    let printed = term::close(term, &held, &mut line).ok()?;
    Some(runner::copy(line.get(..printed)?, end, room))
}
