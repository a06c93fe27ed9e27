// Bytes to fields.
// Ported from the derived `decode_raw` of src/instruction.rs of wtetzner/waterbear, and changed: by shapes.
ghost use Rattle.std.specs.Prelude.{◌≡◌, ◌+◌, ◌*◌, ◌/◌, ◌%◌, pos, slice_index};
ghost use Rattle.instruction.specs.Layout.{fields_by};

use crate::kind::Shape;
use crate::layout::Fields;
use crate::signed;

// The byte at i, and 0 past the end.
fn byte_at(s: &[u8], i: usize) -> u8
    ensures { result ≡ slice_index s.now i }
{
    if i < s.len() { s[i] } else { 0 }
}

fn byte(p: u8) -> i32
    ensures { result ≡ pos p }
{
    signed::num(p as u32)
}

// Nine bits: bit 8 is the first byte's lowest.
fn d9(x: u8, p: u8) -> i32
    ensures { result ≡ pos (x % 2 * 256 + p) }
{
    signed::num(((x % 2) as u32) * 256 + (p as u32))
}

// Nine bits where a bit number stands in bits 0 to 2: bit 8 is the first byte's bit 4.
fn d9_by_bit(x: u8, p: u8) -> i32
    ensures { result ≡ pos (x / 16 % 2 * 256 + p) }
{
    signed::num(((x / 16 % 2) as u32) * 256 + (p as u32))
}

fn bit(x: u8) -> i32
    ensures { result ≡ pos (x % 8) }
{
    signed::num((x % 8) as u32)
}

fn register(x: u8) -> i32
    ensures { result ≡ pos (x % 4) }
{
    signed::num((x % 4) as u32)
}

// Twelve bits: a11 is the first byte's bit 4, a10 to a8 its bits 2 to 0.
fn a12(x: u8, p: u8) -> i32
    ensures { result ≡ pos ((x / 16 % 2 * 8 + x % 8) * 256 + p) }
{
    signed::num(((x / 16 % 2 * 8 + x % 8) as u32) * 256 + (p as u32))
}

fn pair(high: u8, low: u8) -> i32
    ensures { result ≡ pos (high * 256 + low) }
{
    signed::num((high as u32) * 256 + (low as u32))
}

// The fields that stand in bytes; those past the end count as 0.
pub fn read(shape: Shape, bytes: &[u8]) -> Fields
    ensures { result ≡ fields_by shape bytes.now }
{
    let x = byte_at(bytes, 0);
    let p = byte_at(bytes, 1);
    let q = byte_at(bytes, 2);
    match shape {
        Shape::Bare => Fields { a: 0, b: 0, c: 0 },
        Shape::Imm => Fields {
            a: byte(p),
            b: 0,
            c: 0,
        },
        Shape::D9 => Fields {
            a: d9(x, p),
            b: 0,
            c: 0,
        },
        Shape::Ri => Fields {
            a: register(x),
            b: 0,
            c: 0,
        },
        Shape::ImmD9 => Fields {
            a: byte(q),
            b: d9(x, p),
            c: 0,
        },
        Shape::ImmRi => Fields {
            a: byte(p),
            b: register(x),
            c: 0,
        },
        Shape::D9B3 => Fields {
            a: d9_by_bit(x, p),
            b: bit(x),
            c: 0,
        },
        Shape::A12 => Fields {
            a: a12(x, p),
            b: 0,
            c: 0,
        },
        Shape::A16 => Fields {
            a: pair(p, q),
            b: 0,
            c: 0,
        },
        Shape::R16 => Fields {
            a: pair(q, p),
            b: 0,
            c: 0,
        },
        Shape::R8 => Fields {
            a: signed::short(p),
            b: 0,
            c: 0,
        },
        Shape::D9B3R8 => Fields {
            a: d9_by_bit(x, p),
            b: bit(x),
            c: signed::short(q),
        },
        Shape::D9R8 => Fields {
            a: d9(x, p),
            b: signed::short(q),
            c: 0,
        },
        Shape::RiR8 => Fields {
            a: register(x),
            b: signed::short(p),
            c: 0,
        },
        Shape::ImmR8 => Fields {
            a: byte(p),
            b: signed::short(q),
            c: 0,
        },
        Shape::RiImmR8 => Fields {
            a: register(x),
            b: byte(p),
            c: signed::short(q),
        },
    }
}
