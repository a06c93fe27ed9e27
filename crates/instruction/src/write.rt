// Fields to bytes.
// Ported from the derived `encode` of src/instruction.rs of wtetzner/waterbear, and changed: by shapes.
ghost use Rattle.std.specs.Prelude.{◌≡◌, ◌%◌, [], ◌∷◌, length, take, nat_le, cond};
ghost use Rattle.instruction.specs.declared.encode.EncodeError.TheVariants.{NoRoom};
ghost use Rattle.instruction.specs.Layout.{blank, bytes_by, written_room};

use crate::encode::EncodeError;
use crate::instr::Parts;
use crate::kind::Shape;
use crate::{layout, signed};

fn low(n: u32) -> u8
    ensures { result ≡ n % 256 }
{
    (n % 256) as u8
}

// The bytes of an instruction, 0 past its size: the layout filled with three numbers, each bit of them at its place, and the first byte
// with its fixed bits.
fn bytes(shape: Shape, fixed: u8, x: u32, y: u32, z: u32) -> [u8; 3]
    ensures { take (length (blank shape)) result ≡ bytes_by fixed shape (x ∷ y ∷ z ∷ []) }
{
    let t = fixed as u32;
    match shape {
        Shape::Bare => [low(t), 0, 0],
        Shape::Imm => [low(t), low(x), 0],
        Shape::D9 => [low(t + x / 256 % 2), low(x), 0],
        Shape::Ri => [low(t + x % 4), 0, 0],
        Shape::ImmD9 => [low(t + y / 256 % 2), low(y), low(x)],
        Shape::ImmRi => [low(t + y % 4), low(x), 0],
        Shape::D9B3 => [low(t + (x / 256 % 2 * 16 + y % 8)), low(x), 0],
        Shape::A12 => [low(t + (x / 2048 % 2 * 16 + x / 256 % 8)), low(x), 0],
        Shape::A16 => [low(t), low(x / 256), low(x)],
        Shape::R16 => [low(t), low(x), low(x / 256)],
        Shape::R8 => [low(t), low(x), 0],
        Shape::D9B3R8 => [low(t + (x / 256 % 2 * 16 + y % 8)), low(x), low(z)],
        Shape::D9R8 => [low(t + x / 256 % 2), low(x), low(y)],
        Shape::RiR8 => [low(t + x % 4), low(y), 0],
        Shape::ImmR8 => [low(t), low(x), low(y)],
        Shape::RiImmR8 => [low(t + x % 4), low(y), low(z)],
    }
}

// The bytes of the fields laid over the beginning of the room, and how many; or how many bytes are needed, where there is no room for them.
pub fn write(out: &mut [u8], shape: Shape, fixed: u8, v: Parts) -> Result<usize, EncodeError>
    ensures value { result ≡ cond (nat_le (length (blank shape)) (length out.old)) (Ok (length (blank shape))) (Err (NoRoom (length (blank shape)))) }
    ensures out_after { out.new ≡ written_room fixed shape v.a v.b v.c out.old }
{
    let n = layout::size(shape);
    if out.len() < n {
        return Err(EncodeError::NoRoom(n));
    }
    let x = signed::code(v.a);
    let y = signed::code(v.b);
    let z = signed::code(v.c);
    let w = bytes(shape, fixed, x, y, z);
    out[..n].copy_from_slice(&w[..n]);
    Ok(n)
}
