// A bit, and the first that is 0.
ghost use Rattle.std.specs.Prelude.{◌≡◌, ◌+◌, ◌*◌, ◌-◌, ◌%◌, ◌<◌, ◌≤◌, length};
ghost use Rattle.map.specs.Bits.{first_in};
ghost use Rattle.map.specs.Words.{code_at, data_at, Full};

use crate::bits;

pub fn is_code(words: &[u64], q: u32) -> bool
    requires { q < 64 * length words.now }
    ensures { result ≡ code_at words.now q }
{
    bits::is_one(words[(q / 64) as usize], q % 64)
}

// How far from q on, where a word begins, there are words of ones alone; one that reaches past `to` is not looked at.
fn skip_full(words: &[u64], q: u32, to: u32) -> u32
    requires { (q % 64 ≡ 0) × (to ≤ 64 * length words.now) × (to ≤ 65536) × (q < to + 64) }
    ensures { Full words.now to q result }
{
    let first = (q / 64) as usize;
    let end = (to / 64) as usize;
    // `find` over the same range takes a third longer.
    for j in first..end {
        if words[j] != u64::MAX {
            return j as u32 * 64;
        }
    }
    first.max(end) as u32 * 64
}

// The first position from `from` on and before `to` that is data, or else `to`. How far a step goes is told by the words that it passes.
pub fn next_data(words: &[u64], from: u32, to: u32) -> u32
    requires { (from ≤ to) × (to ≤ 64 * length words.now) × (to ≤ 65536) }
    ensures { result ≡ first_in (data_at words.now) (to - from) from }
{
    let mut q = from;
    while q < to {
        let base = q / 64 * 64;
        let i = bits::first_zero(words[(q / 64) as usize], q % 64);
        if i < 64 {
            return to.min(base + i);
        }
        q = skip_full(words, base + 64, to);
    }
    to
}
