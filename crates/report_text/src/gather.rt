// The bytes of an image's text, held up to the empty line that ends it.
ghost use Rattle.std.specs.Prelude.{false, ◌≡◌, ◌≤◌, ◌<◌, length};
ghost use Rattle.report_text.specs.Going.{Going};
ghost use Rattle.report_text.specs.Term.{most, pushed_count, pushed_room, Gathering};

use crate::term::Term;
use crate::{copy, empty};
use text::cut;

#[derive(Clone, Copy)]
pub struct Gathered {
    pub held: usize,
    // The next byte begins a line.
    pub fresh: bool,
    // How many bytes of the text were taken, and whether the last of them ends an image.
    pub used: usize,
    pub complete: bool,
}

// One more byte held, if there is room: how many are held then.
fn push(room: &mut [u8], held: usize, b: u8) -> usize
    requires { most ≤ length room.old }
    ensures value { result ≡ pushed_count held }
    ensures room_after { room.new ≡ pushed_room room.old held b }
{
    if Term::MOST <= held {
        return Term::MOST;
    }
    room[held] = b;
    held + 1
}

// Byte by byte: the first m, or those up to the first that ends an image.
fn gather_bytes(held: usize, fresh: bool, text: &[u8], m: usize, room: &mut [u8]) -> Gathered
    requires { (m ≤ length text.now) × (most ≤ length room.old) }
    ensures { Going held fresh text.now m room.old room.new result }
{
    let mut held = held;
    let mut fresh = fresh;
    for at in 0..m {
        let b = text[at];
        if fresh && b == cut::LINE_END {
            if held != 0 {
                return Gathered {
                    held,
                    fresh,
                    used: at + 1,
                    complete: true,
                };
            }
        } else {
            held = push(room, held, b);
            fresh = b == cut::LINE_END;
        }
    }
    Gathered {
        held,
        fresh,
        used: m,
        complete: false,
    }
}

// The same, all at once where no empty line ends among them and there is room for them all.
fn gather_part(held: usize, fresh: bool, text: &[u8], m: usize, room: &mut [u8]) -> Gathered
    requires { (0 < m) × (m ≤ 256) × (m ≤ length text.now) × (most ≤ length room.old) }
    ensures { Going held fresh text.now m room.old room.new result }
{
    if Term::MOST - m < held {
        return gather_bytes(held, fresh, text, m, room);
    }
    if !empty::is_quiet(fresh, &text[0..m]) {
        return gather_bytes(held, fresh, text, m, room);
    }
    copy::copy(&text[0..m], room, held);
    Gathered {
        held: held + m,
        fresh: text[m - 1] == cut::LINE_END,
        used: m,
        complete: false,
    }
}

// Part by part: an image's text is long, and few of its lines are empty. How much a turn takes is told by the text, so no iterator counts them.
pub fn gather(term: Term, text: &[u8], room: &mut [u8]) -> Gathered
    requires { (most ≤ length room.old) × (term.over ≡ false) }
    ensures { Gathering term text.now room.old room.new result }
{
    let mut held = term.held;
    let mut fresh = term.fresh;
    let mut at: usize = 0;
    while at < text.len() {
        let m = empty::PART.min(text.len() - at);
        let g = gather_part(held, fresh, &text[at..], m, room);
        held = g.held;
        fresh = g.fresh;
        at += g.used;
        if g.complete {
            return Gathered {
                held,
                fresh,
                used: at,
                complete: true,
            };
        }
    }
    Gathered {
        held,
        fresh,
        used: at,
        complete: false,
    }
}
