// Bytes put into lent room. A put writes what of its text falls inside the room and answers the next place, which may lie past the end:
// so the same functions measure and write.
ghost use Rattle.std.specs.Prelude.{◌≡◌, [], ◌∷◌, ◌^◌, ◌≤◌, ◌<◌, length};
ghost use Rattle.listing.specs.Hex.{hex1, hex2, hex3, hex4, hexes};
ghost use Rattle.text.specs.Puts.{Puts, letters};

use crate::hex;

pub fn put_byte(out: &mut [u8], at: usize, b: u8) -> usize
    requires { at < 2 ^ 62 }
    ensures { Puts (b ∷ []) at out.old out.new result }
{
    let next = at + 1;
    if at < out.len() {
        out[at] = b;
    }
    next
}

pub fn put_digit(out: &mut [u8], at: usize, n: u32) -> usize
    requires { at < 2 ^ 62 }
    ensures { Puts (hex1 n ∷ []) at out.old out.new result }
{
    put_byte(out, at, hex::hex1(n))
}

// Each of the longer ones puts a digit and then the shorter one, which is plainer than a loop over shifts by a const parameter.
pub fn put_hex2(out: &mut [u8], at: usize, n: u32) -> usize
    requires { at < 2 ^ 61 }
    ensures { Puts (hex2 n) at out.old out.new result }
{
    let a = put_digit(out, at, n / 16);
    put_digit(out, a, n)
}

pub fn put_hex3(out: &mut [u8], at: usize, n: u32) -> usize
    requires { at < 2 ^ 60 }
    ensures { Puts (hex3 n) at out.old out.new result }
{
    let a = put_digit(out, at, n / 256);
    put_hex2(out, a, n)
}

pub fn put_hex4(out: &mut [u8], at: usize, n: u32) -> usize
    requires { at < 2 ^ 59 }
    ensures { Puts (hex4 n) at out.old out.new result }
{
    let a = put_digit(out, at, n / 4096);
    put_hex3(out, a, n)
}

// A line's letter and position. The letter is a byte of the text that is put, and no choice is made by it.
pub fn put_start(out: &mut [u8], at: usize, letter: u8, p: u32) -> usize
    requires { at < 2 ^ 57 }
    ensures { Puts (letter ∷ 9 ∷ hex4 p) at out.old out.new result }
{
    let a = put_byte(out, at, letter);
    put_place(out, a, p)
}

// A field with a position.
pub fn put_place(out: &mut [u8], at: usize, p: u32) -> usize
    requires { at < 2 ^ 58 }
    ensures { Puts (9 ∷ hex4 p) at out.old out.new result }
{
    let a = put_byte(out, at, b'\t');
    put_hex4(out, a, p)
}

// A field with bytes.
pub fn put_bytes(out: &mut [u8], at: usize, bytes: &[u8]) -> usize
    requires { (at < 2 ^ 58) × (length bytes.now ≤ 65536) }
    ensures { Puts (9 ∷ hexes bytes.now) at out.old out.new result }
{
    let mut a = put_byte(out, at, b'\t');
    for b in bytes {
        a = put_hex2(out, a, u32::from(*b));
    }
    a
}

// A field with letters, the first in the lowest byte of a number.
pub fn put_word(out: &mut [u8], at: usize, word: u64) -> usize
    requires { at < 2 ^ 58 }
    ensures { Puts (9 ∷ letters 8 word) at out.old out.new result }
{
    let mut a = put_byte(out, at, b'\t');
    let mut w = word;
    for _ in 0..8_usize {
        if w == 0 {
            return a;
        }
        a = put_byte(out, a, (w % 256) as u8);
        w /= 256;
    }
    a
}
