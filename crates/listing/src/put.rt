// Parts of lines, put into lent room, for crates that write lines of their own. A put writes what of its text falls inside the room and answers
// the next place, which may lie past the end. Each hands on to the function of its name in `pieces`, which asks for a place below a limit. Here
// nothing is asked: from that limit on nothing is written, and the answer is the place that was given.
ghost use Rattle.std.specs.Prelude.{◌≡◌, [], ◌∷◌, ◌^◌, ◌≤◌, ◌<◌, length};
ghost use Rattle.listing.specs.Hex.{hex1, hex2, hex3, hex4, hexes};
ghost use Rattle.text.specs.Puts.{Puts, letters};

use crate::pieces;

pub fn put_byte(out: &mut [u8], at: usize, b: u8) -> usize
    ensures puts { at < 2 ^ 62 → Puts (b ∷ []) at out.old out.new result }
    ensures kept { ¬ (at < 2 ^ 62) → (out.new ≡ out.old) × (result ≡ at) }
{
    if 1 << 62 <= at {
        return at;
    }
    pieces::put_byte(out, at, b)
}

pub fn put_digit(out: &mut [u8], at: usize, n: u32) -> usize
    ensures puts { at < 2 ^ 62 → Puts (hex1 n ∷ []) at out.old out.new result }
    ensures kept { ¬ (at < 2 ^ 62) → (out.new ≡ out.old) × (result ≡ at) }
{
    if 1 << 62 <= at {
        return at;
    }
    pieces::put_digit(out, at, n)
}

pub fn put_hex2(out: &mut [u8], at: usize, n: u32) -> usize
    ensures puts { at < 2 ^ 61 → Puts (hex2 n) at out.old out.new result }
    ensures kept { ¬ (at < 2 ^ 61) → (out.new ≡ out.old) × (result ≡ at) }
{
    if 1 << 61 <= at {
        return at;
    }
    pieces::put_hex2(out, at, n)
}

pub fn put_hex3(out: &mut [u8], at: usize, n: u32) -> usize
    ensures puts { at < 2 ^ 60 → Puts (hex3 n) at out.old out.new result }
    ensures kept { ¬ (at < 2 ^ 60) → (out.new ≡ out.old) × (result ≡ at) }
{
    if 1 << 60 <= at {
        return at;
    }
    pieces::put_hex3(out, at, n)
}

pub fn put_hex4(out: &mut [u8], at: usize, n: u32) -> usize
    ensures puts { at < 2 ^ 59 → Puts (hex4 n) at out.old out.new result }
    ensures kept { ¬ (at < 2 ^ 59) → (out.new ≡ out.old) × (result ≡ at) }
{
    if 1 << 59 <= at {
        return at;
    }
    pieces::put_hex4(out, at, n)
}

// A line's letter and position. The letter is a byte of the text, by which no choice is made.
pub fn put_start(out: &mut [u8], at: usize, letter: u8, p: u32) -> usize
    ensures puts { at < 2 ^ 57 → Puts (letter ∷ 9 ∷ hex4 p) at out.old out.new result }
    ensures kept { ¬ (at < 2 ^ 57) → (out.new ≡ out.old) × (result ≡ at) }
{
    if 1 << 57 <= at {
        return at;
    }
    pieces::put_start(out, at, letter, p)
}

// A field with a position.
pub fn put_place(out: &mut [u8], at: usize, p: u32) -> usize
    ensures puts { at < 2 ^ 58 → Puts (9 ∷ hex4 p) at out.old out.new result }
    ensures kept { ¬ (at < 2 ^ 58) → (out.new ≡ out.old) × (result ≡ at) }
{
    if 1 << 58 <= at {
        return at;
    }
    pieces::put_place(out, at, p)
}

// A field with bytes, at most as many as the longest image has; where there are more, nothing is put either.
pub fn put_bytes(out: &mut [u8], at: usize, bytes: &[u8]) -> usize
    ensures puts { (at < 2 ^ 58) × (length bytes.now ≤ 65536) → Puts (9 ∷ hexes bytes.now) at out.old out.new result }
    ensures kept { ¬ ((at < 2 ^ 58) × (length bytes.now ≤ 65536)) → (out.new ≡ out.old) × (result ≡ at) }
{
    if 1 << 58 <= at || 65_536 < bytes.len() {
        return at;
    }
    pieces::put_bytes(out, at, bytes)
}

// A field with letters, the first in the lowest byte of a number.
pub fn put_word(out: &mut [u8], at: usize, word: u64) -> usize
    ensures puts { at < 2 ^ 58 → Puts (9 ∷ letters 8 word) at out.old out.new result }
    ensures kept { ¬ (at < 2 ^ 58) → (out.new ≡ out.old) × (result ≡ at) }
{
    if 1 << 58 <= at {
        return at;
    }
    pieces::put_word(out, at, word)
}
