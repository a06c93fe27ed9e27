// The ones of a stretch, counted in each word.
ghost use Rattle.std.specs.Prelude.{◌≡◌, ◌*◌, ◌-◌, ◌≤◌, length, get_or};
ghost use Rattle.map.specs.Bits.{count_in, ones_between};
ghost use Rattle.map.specs.Words.{code_at};

use crate::bits;

// How many bits of a stretch of one word are 1; there are none where the word is missing.
fn ones_at(words: &[u64], j: u32, from: u32, to: u32) -> u32
    ensures { result ≡ ones_between (get_or words.now j 0) from to }
{
    bits::ones_between(words.get(j as usize).copied().unwrap_or(0), from, to)
}

// The ones of whole words, from the first on and before the last.
fn whole(words: &[u64], first: u32, last: u32) -> u32
    requires { (first ≤ last) × (last ≤ length words.now) × (last ≤ 1024) }
    ensures { result ≡ count_in (code_at words.now) (64 * (last - first)) (64 * first) }
{
    let mut n = 0;
    for w in &words[first as usize..last as usize] {
        n += w.count_ones();
    }
    n
}

// How many positions from `from` on and before `to` are code.
pub fn ones_in(words: &[u64], from: u32, to: u32) -> u32
    requires { (from ≤ to) × (to ≤ 64 * length words.now) × (to ≤ 65536) }
    ensures { result ≡ count_in (code_at words.now) (to - from) from }
{
    let first = from / 64;
    let last = to / 64;
    if first == last {
        return ones_at(words, first, from % 64, to % 64);
    }
    let head = ones_at(words, first, from % 64, 64);
    let body = whole(words, first + 1, last);
    head + body + ones_at(words, last, 0, to % 64)
}
