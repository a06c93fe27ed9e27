// The bits of a word, from 0, the lowest, to 63. A stretch of bits excludes its end.
ghost use Rattle.std.specs.Prelude.{◌≡◌, ◌+◌, ◌<◌};
ghost use Rattle.map.specs.Bits.{one, lows, between, digits, ones_between, first_zero, with_ones};
ghost use Rattle.map.specs.Words.{words_for};

// How many words have a bit for each of so many positions.
pub fn words_for(length: usize) -> usize
    ensures { result ≡ words_for length }
{
    length.div_ceil(64)
}

// Whether bit i is 1; no bit from 64 on is.
pub fn is_one(w: u64, i: u32) -> bool
    ensures { result ≡ one w i }
{
    i < 64 && (w >> i) % 2 == 1
}

// The word with 1 at each bit below this one.
fn low(to: u32) -> u64
    ensures { result ≡ digits (lows to) 64 0 }
{
    if 64 <= to {
        return u64::MAX;
    }
    (1 << to) - 1
}

// The word with 1 at the bits of a stretch.
fn stretch(from: u32, to: u32) -> u64
    ensures { result ≡ digits (between from to) 64 0 }
{
    low(to) & !low(from)
}

// How many bits of a stretch are 1.
pub fn ones_between(w: u64, from: u32, to: u32) -> u32
    ensures { result ≡ ones_between w from to }
{
    (w & stretch(from, to)).count_ones()
}

// The first bit from this one on that is 0, or 64.
pub fn first_zero(w: u64, from: u32) -> u32
    ensures { result ≡ first_zero w from }
{
    (!(w | low(from))).trailing_zeros()
}

// The word with 1 at so many bits from this one on, as far as it goes.
fn some_from(from: u32, n: u32) -> u64
    requires { from < 64 }
    ensures { result ≡ digits (between from (from + n)) 64 0 }
{
    low(n) << from
}

// The word with so many bits set from this one on, as far as it goes.
pub fn with_ones(w: u64, from: u32, n: u32) -> u64
    ensures { result ≡ with_ones w from (from + n) }
{
    if 64 <= from {
        return w;
    }
    w | some_from(from, n)
}
