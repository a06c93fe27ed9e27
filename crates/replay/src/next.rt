// The record after one more line, and its totals, which stop at the highest.
ghost use Rattle.std.specs.Prelude.{◌≡◌, min, Some};
ghost use Rattle.replay.specs.Log.{highest, one_more, fault_number, refusing, going};

use crate::fault::Fault;
use crate::log::Log;
use crate::moves::Move;

// The highest total: what a value of an answer holds.
pub const HIGHEST: u64 = 0x7FFF_FFFF_FFFF_FFFF;

// One more, or the highest.
pub fn one_more(n: u64) -> u64
    ensures { result ≡ one_more n }
{
    if HIGHEST <= n {
        return HIGHEST;
    }
    n + 1
}

// A total, or the highest.
pub fn at_most(n: u64) -> u64
    ensures { result ≡ min n highest }
{
    n.min(HIGHEST)
}

// The next line is refused.
pub fn refuse(log: Log, fault: Fault) -> Log
    ensures { result ≡ refusing log (fault_number fault) }
{
    Log {
        refusal: fault as u64,
        held: 0,
        part: 0,
        ..log
    }
}

// The next line is taken: it tells p, and these are the totals of moves after it.
fn taken(log: Log, p: u32, interrupts: u64, free: u64) -> Log
    ensures { result
        ≡ record { lines = one_more log.lines; interrupts = interrupts; free = free; last = p; refusal = 0; held = 0; part = 0 } }
{
    Log {
        lines: one_more(log.lines),
        interrupts,
        free,
        last: p as u64,
        refusal: 0,
        held: 0,
        part: 0,
    }
}

// The next line is taken: it tells p, and control came there so. By cases, so that a move to a target, as most are, is at no other total.
pub fn go_on(log: Log, p: u32, by: Move) -> Log
    ensures { result ≡ going log p (Some by) }
{
    match by {
        Move::Target => taken(log, p, log.interrupts, log.free),
        Move::Interrupt => taken(log, p, one_more(log.interrupts), log.free),
        Move::Free => taken(log, p, log.interrupts, one_more(log.free)),
    }
}
