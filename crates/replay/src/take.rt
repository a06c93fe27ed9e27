// The lines of a log, one after another.
ghost use Rattle.std.specs.Prelude.{◌≡◌, ◌≤◌, ◌<◌, min, length, IfOk};
ghost use Rattle.map.specs.Words.{code_at};
ghost use Rattle.replay.specs.Line.{position_of};
ghost use Rattle.replay.specs.Take.{move_now, taken_at, feed_of, State, state, after_line};

use crate::fault::Fault;
use crate::ground::Ground;
use crate::log::Log;
use crate::moves::Move;
use crate::{keep, line, moves, next};
use targets::Image;

// A position as a record holds it: all that lie outside memory are one.
fn position(last: u64) -> u32
    ensures { result ≡ min last 65536 }
{
    last.min(Image::NOWHERE as u64) as u32
}

// How control comes to p, if it may: the first line is no move.
fn move_now(log: Log, ground: Ground<'_>, p: u32) -> Option<Move>
    requires { (p < 65536) × (p < length ground.image.now) }
    ensures { result ≡ move_now ground.entry.mode ground.entry.image.now ground.entry.marks.now (code_at ground.entry.table.now) log p }
{
    if log.lines == 0 {
        return Some(Move::Target);
    }
    moves::move_to(ground, position(log.last), p)
}

// A line taken: the record after it, or why it is refused.
fn take_line(
    log: Log,
    ground: Ground<'_>,
    counts: &mut [u64],
    line: &[u8; line::LENGTH],
) -> Result<Log, Fault>
    requires { length ground.image.now ≤ length counts.old }
    ensures after { state (after_line log result) counts.new
        ≡ taken_at ground.entry.mode ground.entry.image.now ground.entry.marks.now (code_at ground.entry.table.now) (state log counts.old)
        (position_of line.now) }
    ensures goes_on { IfOk result (λ l. l.refusal ≡ 0) }
{
    let p = line::position_of(line);
    if p == Image::NOWHERE {
        return Err(Fault::Malformed);
    }
    let at = p as usize;
    if !views::is_traced_at(ground.image, ground.marks, at) {
        return Err(Fault::Untraced);
    }
    let Some(by) = move_now(log, ground, p) else {
        return Err(Fault::Forbidden);
    };
    let count = counts[at];
    if count == u64::MAX {
        return Err(Fault::Full);
    }
    counts[at] = count + 1;
    Ok(next::go_on(log, p, by))
}

// A text that begins where a line does: its lines, up to the first that is refused, and what is left of it.
pub fn take_lines(log: Log, ground: Ground<'_>, text: &[u8], counts: &mut [u64]) -> Log
    requires { length ground.image.now ≤ length counts.old }
    ensures { state result counts.new
        ≡ feed_of ground.entry.mode ground.entry.image.now ground.entry.marks.now (code_at ground.entry.table.now) (state log counts.old) text.now }
{
    let (lines, rest) = text.as_chunks();
    let mut after = log;
    for line in lines {
        match take_line(after, ground, counts, line) {
            Ok(taken) => after = taken,
            Err(fault) => return next::refuse(after, fault),
        }
    }
    keep::keep(after, rest)
}
