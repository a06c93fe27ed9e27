// A block fed to the record, where nothing is refused beforehand.
ghost use Rattle.std.specs.Prelude.{◌≡◌, ◌≤◌, length};
ghost use Rattle.map.specs.Words.{code_at};
ghost use Rattle.replay.specs.Take.{block_of, state};
ghost use Rattle.replay.specs.Block.{is_entry_of};

use crate::ground::Ground;
use crate::log::Log;
use crate::{entry, keep, line, take};
use instruction::Mode;

// A block taken after the bytes that are held: with them its beginning may be a line.
fn take_joined(log: Log, ground: Ground<'_>, text: &[u8], counts: &mut [u64]) -> Log
    requires { length ground.image.now ≤ length counts.old }
    ensures { state result counts.new
        ≡ block_of ground.entry.mode ground.entry.image.now ground.entry.marks.now (code_at ground.entry.table.now) (state log counts.old) text.now }
{
    let mut begin = [0u8; line::LENGTH];
    let n = keep::begin_line(log, text, &mut begin);
    if n < line::LENGTH {
        return keep::keep(log, &begin[0..n]);
    }
    // As a text of its own: a line is taken by the loop over lines alone, so that the compiler makes it part of the loop.
    let after = take::take_lines(log, ground, &begin, counts);
    if after.refusal != 0 {
        return after;
    }
    let taken = line::LENGTH - keep::held_in(log);
    take::take_lines(after, ground, &text[taken..], counts)
}

// With the entries as they are lent.
pub fn feed(
    log: Log,
    mode: Mode,
    text: &[u8],
    image: &[u8],
    marks: &[u8],
    entries: &[u32],
    counts: &mut [u64],
) -> Log
    requires { (length image.now ≤ 65536) × (length image.now ≤ length counts.old) }
    ensures { state result counts.new
        ≡ block_of mode image.now marks.now (is_entry_of entries.now) (state log counts.old) text.now }
{
    let mut table = entry::table();
    entry::enter(&mut table, entries);
    let ground = Ground {
        mode,
        image,
        marks,
        table: &table,
    };
    take_joined(log, ground, text, counts)
}
