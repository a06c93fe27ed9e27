// The entries as a table of bits, so that no line searches through them.
ghost use Rattle.std.specs.Prelude.{◌≡◌, ◌<◌, replicate};
ghost use Rattle.map.specs.Words.{code_at};
ghost use Rattle.replay.specs.Entry.{with_entry, with_entries};

use map::bits;
use targets::Image;

pub const WORDS: usize = 1_024;

// A word for each 64 positions of memory, all 0.
pub fn table() -> [u64; WORDS]
    ensures { result ≡ replicate 1024 0 }
{
    [0; WORDS]
}

// Sets the bits of these entries; one outside memory has none.
pub fn enter(table: &mut [u64; WORDS], entries: &[u32])
    ensures { table.new ≡ with_entries entries.now table.old }
{
    for q in entries {
        enter_one(table, *q);
    }
}

fn enter_one(table: &mut [u64; WORDS], q: u32)
    ensures { table.new ≡ with_entry q table.old }
{
    if Image::NOWHERE <= q {
        return;
    }
    let j = (q / 64) as usize;
    table[j] = bits::with_ones(table[j], q % 64, 1);
}

// Whether the position is an entry.
pub fn is_entry(table: &[u64; WORDS], q: u32) -> bool
    requires { q < 65536 }
    ensures { result ≡ code_at table.now q }
{
    bits::is_one(table[(q / 64) as usize], q % 64)
}
