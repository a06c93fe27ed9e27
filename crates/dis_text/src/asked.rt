// What the words ask for, up to one of them.
ghost use Rattle.std.specs.Prelude.{◌≡◌, false, ltb, length, set, Some};
ghost use Rattle.listing.specs.Walk.{unchosen};
ghost use Rattle.instruction.specs.declared.mode.Mode.TheVariants.{Unwrapped};
ghost use Rattle.dis_text.specs.Held.{counts, held, Counted, CountedIn, setting, took_of, word_answer};
ghost use Rattle.dis_text.specs.declared.word.Word.TheVariants.{Number};

use crate::word::Word;
use instruction::Mode;
use listing::Arrivals;

// How many entries and pins, which stand in two rooms, and the settings.
#[derive(Clone, Copy)]
pub struct Asked {
    pub entries: usize,
    pub pins: usize,
    pub mode: Mode,
    pub arrivals: Arrivals,
    // The next word is a pin.
    pub pinning: bool,
}

impl Asked {
    // As many entries, and as many pins.
    pub const MOST: usize = 256;

    // Before the first word.
    pub fn new() -> Self
        ensures { result ≡ counts 0 0 Unwrapped unchosen false }
    {
        Self {
            entries: 0,
            pins: 0,
            mode: Mode::Unwrapped,
            arrivals: Arrivals::DEFAULT,
            pinning: false,
        }
    }
}

// Puts a number at a place, if there is one.
fn push(n: u32, room: &mut [u32], at: usize) -> bool
    ensures { (result ≡ ltb at (length room.old)) × (room.new ≡ set room.old at n) }
{
    if room.len() <= at {
        return false;
    }
    room[at] = n;
    true
}

// What is asked with a number more, which is a pin or an entry; none where it may not stand here.
fn take_number(asked: Asked, n: u32, entries: &mut [u32], pins: &mut [u32]) -> Option<Asked>
    requires { (length entries.old ≡ 256) × (length pins.old ≡ 256) × Counted asked }
    ensures pins_after { took_of result entries.new pins.new ≡ word_answer (held asked entries.old pins.old) (Some (Number n)) }
    ensures counted_in { CountedIn result }
{
    if asked.pinning {
        if !push(n, pins, asked.pins) {
            return None;
        }
        return Some(Asked {
            pins: asked.pins + 1,
            pinning: false,
            ..asked
        });
    }
    if !push(n, entries, asked.entries) {
        return None;
    }
    Some(Asked {
        entries: asked.entries + 1,
        ..asked
    })
}

// Other settings, which may not stand where a pin is awaited.
fn set(asked: Asked, mode: Mode, arrivals: Arrivals, pinning: bool) -> Option<Asked>
    ensures { result ≡ setting asked mode arrivals pinning }
{
    if asked.pinning {
        return None;
    }
    Some(Asked {
        mode,
        arrivals,
        pinning,
        ..asked
    })
}

// What is asked with one word more; none where it may not stand here.
pub fn take_word(asked: Asked, word: Word, entries: &mut [u32], pins: &mut [u32]) -> Option<Asked>
    requires { (length entries.old ≡ 256) × (length pins.old ≡ 256) × Counted asked }
    ensures pins_after { took_of result entries.new pins.new ≡ word_answer (held asked entries.old pins.old) (Some word) }
    ensures counted_in { CountedIn result }
{
    let mode = asked.mode;
    let arrivals = asked.arrivals;
    match word {
        Word::Number(n) => take_number(asked, n, entries, pins),
        Word::Wraps => set(asked, Mode::Wrapping, arrivals, false),
        Word::NoArrivals => set(asked, mode, Arrivals::Declined, false),
        Word::Pin => set(asked, mode, arrivals, true),
    }
}
