// The operands of an instruction, as fields of its line.
ghost use Rattle.std.specs.Prelude.{◌≡◌, [], ◌∷◌, ◌^◌, ◌<◌, nat_abs};
ghost use Rattle.targets.specs.Asked.{operand_place};
ghost use Rattle.listing.specs.Hex.{hex1, hex2};
ghost use Rattle.listing.specs.Alone.{shown_alone, field_alone, operands_alone};
ghost use Rattle.listing.specs.Operand.{target};
ghost use Rattle.text.specs.Puts.{Puts};

use crate::pieces;
use instruction::{Kind, Mode, Parts};
use targets::Image;

// The target that an operand of a kind with the number z names, of an instruction that ends at next.
fn put_target(out: &mut [u8], at: usize, mode: Mode, next: u64, kind: Kind, z: i32) -> usize
    requires { at < 2 ^ 59 }
    ensures { Puts (target (operand_place mode next kind z)) at out.old out.new result }
{
    let t = targets::operand_place(mode, next, kind, z);
    // The definition `operand_place` answers that number where no position is named.
    if Image::NOWHERE <= t {
        return pieces::put_byte(out, at, b'?');
    }
    pieces::put_hex4(out, at, t)
}

fn put_immediate(out: &mut [u8], at: usize, n: u32) -> usize
    requires { at < 2 ^ 59 }
    ensures { Puts (35 ∷ hex2 n) at out.old out.new result }
{
    let a = pieces::put_byte(out, at, b'#');
    pieces::put_hex2(out, a, n)
}

fn put_register(out: &mut [u8], at: usize, n: u32) -> usize
    requires { at < 2 ^ 59 }
    ensures { Puts (64 ∷ 82 ∷ hex1 n ∷ []) at out.old out.new result }
{
    let a = pieces::put_byte(out, at, b'@');
    let b = pieces::put_byte(out, a, b'R');
    pieces::put_digit(out, b, n)
}

// An operand's number without its sign; of those that are shown none is below 0.
fn number(z: i32) -> u32
    ensures { result ≡ nat_abs z }
{
    z.unsigned_abs()
}

// An operand of a kind with the number z, of an instruction that ends at next.
fn put_operand(out: &mut [u8], at: usize, mode: Mode, next: u64, kind: Kind, z: i32) -> usize
    requires { at < 2 ^ 59 }
    ensures { Puts (shown_alone mode next kind z) at out.old out.new result }
{
    let n = number(z);
    match kind {
        Kind::Absent => at,
        Kind::Immediate => put_immediate(out, at, n),
        Kind::Direct => pieces::put_hex3(out, at, n),
        Kind::Register => put_register(out, at, n),
        Kind::BitNumber => pieces::put_digit(out, at, n),
        Kind::Page | Kind::Far | Kind::Short | Kind::Long => {
            put_target(out, at, mode, next, kind, z)
        }
    }
}

// An operand as a field, where there is one.
fn put_field(out: &mut [u8], at: usize, mode: Mode, next: u64, kind: Kind, z: i32) -> usize
    requires { at < 2 ^ 58 }
    ensures { Puts (field_alone mode next kind z) at out.old out.new result }
{
    if !kind.is_given() {
        return at;
    }
    let a = pieces::put_byte(out, at, b'\t');
    put_operand(out, a, mode, next, kind, z)
}

// The operands in the order shown, and the end of the line.
pub fn put_operands(out: &mut [u8], at: usize, mode: Mode, next: u64, v: Parts) -> usize
    requires { at < 2 ^ 57 }
    ensures { Puts (operands_alone mode next v) at out.old out.new result }
{
    let k = v.kinds();
    let ka = k.a;
    let kb = k.b;
    let kc = k.c;
    let a = put_field(out, at, mode, next, ka, v.a);
    let b = put_field(out, a, mode, next, kb, v.b);
    let c = put_field(out, b, mode, next, kc, v.c);
    pieces::put_byte(out, c, b'\n')
}
