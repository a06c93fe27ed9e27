// The fields of an instruction, and how many bytes they take with the first byte's fixed bits.
ghost use Rattle.std.specs.Prelude.{◌≡◌, length};
ghost use Rattle.instruction.specs.Layout.{blank};

use crate::kind::Shape;

// In the order shown, 0 where there is none.
#[derive(Clone, Copy)]
pub struct Fields {
    pub a: i32,
    pub b: i32,
    pub c: i32,
}

#[tactic(auto, unfolding(crate::specs::Layout::blank))]
pub fn size(shape: Shape) -> usize
    ensures { result ≡ length (blank shape) }
{
    match shape {
        Shape::Bare => 1,
        Shape::Imm => 2,
        Shape::D9 => 2,
        Shape::Ri => 1,
        Shape::ImmD9 => 3,
        Shape::ImmRi => 2,
        Shape::D9B3 => 2,
        Shape::A12 => 2,
        Shape::A16 => 3,
        Shape::R16 => 3,
        Shape::R8 => 2,
        Shape::D9B3R8 => 3,
        Shape::D9R8 => 3,
        Shape::RiR8 => 2,
        Shape::ImmR8 => 3,
        Shape::RiImmR8 => 3,
    }
}
