// The positions of `I` lines as a table of bits: 0 where there is one, so that a search for data in a packed map finds them.
ghost use Rattle.std.specs.Prelude.{◌≡◌, ◌++◌, ◌-◌, ◌≤◌, ◌<◌, length, drop, replicate};
ghost use Rattle.map.specs.Bits.{first_in};
ghost use Rattle.map.specs.Words.{data_at};
ghost use Rattle.read_back.specs.Noted.{noted_by, marks_in};

use crate::place::Record;
use map::bits;
use marks::Mark;

pub const WORDS: usize = 1_024;

// A word for each 64 positions of memory, with no position noted.
pub fn table() -> [u64; WORDS]
    ensures { result ≡ replicate 1024 0xFFFFFFFFFFFFFFFF }
{
    [0xFFFF_FFFF_FFFF_FFFF; WORDS]
}

// Notes an `I` line.
pub fn note(r: Record, table: &mut [u64; WORDS])
    requires { r.position < 65536 }
    ensures { table.new ≡ noted_by r table.old }
{
    if r.letter == b'I' {
        let q = r.position;
        let j = (q / 64) as usize;
        table[j] = !bits::with_ones(!table[j], q % 64, 1);
    }
}

// The first position from q on that is noted, of n positions; n where there is none, as the definition `first_in` has it.
fn next(table: &[u64; WORDS], n: usize, q: usize) -> usize
    requires { (n ≤ 65536) × (q ≤ n) }
    ensures { result ≡ first_in (data_at table.now) (n - q) q }
{
    let Ok(r) = map::first_data(table, n, q as u32) else {
        return n;
    };
    r as usize
}

// Writes the marks of n positions.
pub fn put_marks(table: &[u64; WORDS], n: usize, marks: &mut [u8])
    requires { (n ≤ 65536) × (n ≤ length marks.old) }
    ensures { marks.new ≡ marks_in table.now n ++ drop n marks.old }
{
    marks[..n].fill(Mark::UNTOUCHED);
    let mut i = next(table, n, 0);
    // A `while`, since what is found says where the search goes on.
    while i < n {
        marks[i] = Mark::TRACED;
        i = next(table, n, i + 1);
    }
}
