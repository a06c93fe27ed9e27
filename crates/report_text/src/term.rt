// A term's text, taken in blocks that are cut at any byte. The record is handed on by value; the text of the image that has begun stands in a
// lent room.
ghost use Rattle.std.specs.Prelude.{◌≡◌, ◌≤◌, ◌<◌, IfOk, length};
ghost use Rattle.instruction.specs.Answer.{judge};
ghost use Rattle.views.specs.View.{checked_of, viewed_of};
ghost use Rattle.report_text.specs.Term.{begun, held_in, state, room_refusals};
ghost use Rattle.report_text.specs.Term.{taken_of, used_of, term_of, take_answer, take_used, take_state, take_out, close_answer, close_room};

use crate::sums::Sums;
use crate::{finish, gather, line};
use views::ViewError;

#[derive(Clone, Copy, Debug, PartialEq, Eq)]
pub struct Term {
    pub sums: Sums,
    // How many bytes of an image's text the room holds.
    pub held: usize,
    // The next byte begins a line.
    pub fresh: bool,
    // 22 was printed: nothing follows.
    pub over: bool,
}

// What one call took: the record after it, how many bytes of the text, and how many bytes it printed.
#[derive(Clone, Copy, Debug, PartialEq, Eq)]
pub struct Taken {
    pub term: Term,
    pub used: usize,
    pub printed: usize,
}

impl Term {
    // As many bytes of an image's text are held: more than the longest has that is not malformed.
    pub const MOST: usize = 51_200;

    // As long as what one call prints can be.
    pub const MOST_PRINTED: usize = 512;

    // Before the first byte.
    pub fn new() -> Self
        ensures { result ≡ begun }
    {
        Self {
            sums: Sums::new(),
            held: 0,
            fresh: true,
            over: false,
        }
    }

    // How many bytes are held, also in a record that no call made.
    fn held_in(self) -> usize
        ensures { result ≡ held_in self }
    {
        self.held.min(Self::MOST)
    }
}

// Whether the two rooms are long enough, or what is needed.
fn check(room: &[u8], out: &[u8]) -> Result<(), ViewError>
    ensures { checked_of result ≡ judge (room_refusals room.now out.now) tt }
{
    if room.len() < Term::MOST {
        return Err(ViewError::NoRoom(Term::MOST));
    }
    if out.len() < Term::MOST_PRINTED {
        return Err(ViewError::NoRoom(Term::MOST_PRINTED));
    }
    Ok(())
}

// Takes a text up to the first byte that ends an image, and prints that image's line; or the whole text. A refusal takes nothing.
pub fn take(term: Term, text: &[u8], room: &mut [u8], out: &mut [u8]) -> Result<Taken, ViewError>
    ensures printed_value { taken_of result ≡ take_answer term text.now room.old out.old }
    ensures used_value { used_of result ≡ take_used term text.now room.old out.old }
    ensures room_after { state (term_of result term) room.new ≡ take_state term text.now room.old out.old }
    ensures out_after { out.new ≡ take_out term text.now room.old out.old }
    ensures within { IfOk result (λ taken. taken.used ≤ length text.now) }
    ensures some { IfOk result (λ taken. 0 < length text.now → 0 < taken.used) }
{
    check(room, out)?;
    if term.over {
        return Ok(Taken {
            term,
            used: text.len(),
            printed: 0,
        });
    }
    let g = gather::gather(term, text, room);
    let after = Term {
        sums: term.sums,
        held: g.held,
        fresh: g.fresh,
        over: false,
    };
    if !g.complete {
        return Ok(Taken {
            term: after,
            used: g.used,
            printed: 0,
        });
    }
    let n = after.held_in();
    let f = finish::finish(term.sums, &room[..n], out);
    Ok(Taken {
        term: f.term,
        used: g.used,
        printed: f.printed,
    })
}

// Prints the last image, if one is held, and the sums.
pub fn close(term: Term, room: &[u8], out: &mut [u8]) -> Result<usize, ViewError>
    ensures result_value { viewed_of result ≡ close_answer term room.now out.old }
    ensures out_after { out.new ≡ close_room term room.now out.old }
{
    check(room, out)?;
    if term.over {
        return Ok(0);
    }
    let n = term.held_in();
    if n == 0 {
        return Ok(line::put_total(term.sums, out, 0));
    }
    let f = finish::finish(term.sums, &room[..n], out);
    if f.term.over {
        return Ok(f.printed);
    }
    Ok(line::put_total(f.term.sums, out, f.printed))
}
