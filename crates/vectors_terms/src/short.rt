// Rooms of a block and of the end that are one byte too short: refused with what is needed, nothing taken and nothing written.
ghost use Rattle.std.specs.Prelude.{◌≤◌};

use crate::rooms;
use report_text::{Term, term};
use runner::Tally;
use runner::call::{OLD, is_old};
use views::ViewError;

// A block.
fn is_block_refused(need: usize, held: &mut [u8], line: &mut [u8]) -> bool {
    held.fill(OLD);
    line.fill(OLD);
    let taken = term::take(Term::new(), b"N\ta\n\n", held, line);
    taken == Err(ViewError::NoRoom(need)) && is_old(held) && is_old(line)
}

// The end.
fn is_end_refused(need: usize, held: &[u8], line: &mut [u8]) -> bool {
    line.fill(OLD);
    term::close(Term::new(), held, line) == Err(ViewError::NoRoom(need)) && is_old(line)
}

// With so many bytes to hold a text in, and so many to print in.
fn is_refused(n: usize, k: usize, need: usize) -> bool
    requires { (n ≤ 51200) × (k ≤ 512) }
{
    let mut held = rooms::held();
    let mut line = rooms::printed();
    let held = &mut held[..n];
    let line = &mut line[..k];
    is_block_refused(need, held, line) && is_end_refused(need, held, line)
}

pub fn replay() -> Tally {
    let mut tally = Tally::default();
    tally.count(is_refused(Term::MOST - 1, Term::MOST_PRINTED, Term::MOST));
    tally.count(is_refused(Term::MOST, Term::MOST_PRINTED - 1, Term::MOST_PRINTED));
    tally
}
