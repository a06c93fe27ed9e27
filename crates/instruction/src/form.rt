// Forms by number: which form a first byte has, the fixed bits and the operands of a form, and the operands of a first byte's form.
ghost use Rattle.std.specs.Prelude.{◌≡◌, ◌<◌, [], slice_index_or};
ghost use Rattle.instruction.specs.Tables.{shape_number};
ghost use Rattle.instruction.specs.FirstBits.{column_word, shaped_by};
ghost use Rattle.instruction.specs.Forms.{form_at, form_of, bits};
ghost use Rattle.instruction.specs.Grid.{column, rule_of};
ghost use Rattle.instruction.specs.Pattern.{value};

use crate::kind::Shape;
use crate::tables;

// The column of a first byte's low four bits in document 01's table. All sixteen are written out, so that the compiler makes a load of it.
fn column(low: u8) -> u8
    ensures { result ≡ column low }
{
    match low {
        0 => 0,
        1 => 1,
        2 => 2,
        3 => 2,
        4 => 3,
        5 => 3,
        6 => 3,
        7 => 3,
        8 => 4,
        9 => 4,
        10 => 4,
        11 => 4,
        12 => 4,
        13 => 4,
        14 => 4,
        _ => 4,
    }
}

pub fn lookup(first: u8) -> u8
    ensures { (result ≡ rule_of first) × (result < 70) }
{
    let k = 16 * column(first % 16) + first / 16;
    tables::byte_of(tables::forms(k / 8), k % 8)
}

pub fn fixed_of(form: u8) -> u8
    requires { form < 70 }
    ensures { result ≡ value (slice_index_or (bits (form_at form)) 0 []) [] }
{
    tables::byte_of(tables::fixed(form / 8), form % 8)
}

fn numbered(n: u8) -> Shape
    requires { n < 16 }
    ensures { n ≡ shape_number result }
{
    match n {
        0 => Shape::Bare,
        1 => Shape::Imm,
        2 => Shape::D9,
        3 => Shape::Ri,
        4 => Shape::ImmD9,
        5 => Shape::ImmRi,
        6 => Shape::D9B3,
        7 => Shape::A12,
        8 => Shape::A16,
        9 => Shape::R16,
        10 => Shape::R8,
        11 => Shape::D9B3R8,
        12 => Shape::D9R8,
        13 => Shape::RiR8,
        14 => Shape::ImmR8,
        _ => Shape::RiImmR8,
    }
}

pub fn shape_of(form: u8) -> Shape
    requires { form < 70 }
    ensures { result ≡ (form_at form).shape }
{
    numbered(tables::byte_of(tables::shapes(form / 8), form % 8))
}

// The shapes of the first bytes that have these low four bits, row by row, four bits each.
fn shape_word(low: u8) -> u64
    requires { low < 16 }
    ensures { result ≡ column_word shaped_by low }
{
    match low {
        0 => 0x0000_00AA_2200_0890,
        1 => 0x1110_1111_220E_E89A,
        2 => 0x2222_2222_22CC_C422,
        3 => 0x2222_2222_22CC_C422,
        4 => 0x3333_3333_33DF_F533,
        5 => 0x3333_3333_33DF_F533,
        6 => 0x3333_3333_33DF_F533,
        7 => 0x3333_3333_33DF_F533,
        8 => 0x6666_66BB_BBBB_7777,
        9 => 0x6666_66BB_BBBB_7777,
        10 => 0x6666_66BB_BBBB_7777,
        11 => 0x6666_66BB_BBBB_7777,
        12 => 0x6666_66BB_BBBB_7777,
        13 => 0x6666_66BB_BBBB_7777,
        14 => 0x6666_66BB_BBBB_7777,
        _ => 0x6666_66BB_BBBB_7777,
    }
}

// The same as `shape_of(lookup(first))`, without the form in between.
pub fn shape_by(first: u8) -> Shape
    ensures { result ≡ (form_at (form_of first)).shape }
{
    numbered(((shape_word(first % 16) >> (4 * (first / 16))) % 16) as u8)
}
