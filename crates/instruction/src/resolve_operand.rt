// Numbers as written and a base to fields.
// Ported from `Instr::eval`, `rel8`, `rel16` and `eval12` of src/instruction.rs of wtetzner/waterbear, and changed: numbers for expressions.
ghost use Rattle.std.specs.Prelude.{◌≡◌, ◌≤◌, false, [], ◌∷◌, pos, ◌-ℤ◌};
ghost use Rattle.instruction.specs.Answer.{refuse, judge};
ghost use Rattle.instruction.specs.Range.{unfit};
ghost use Rattle.instruction.specs.declared.kind.Kind.TheVariants.{Page, Short, Long};
ghost use Rattle.instruction.specs.declared.mode.Mode.TheVariants.{Unwrapped};
ghost use Rattle.instruction.specs.declared.resolve_operand.OperandError.TheVariants.{Unfit};
ghost use Rattle.instruction.specs.declared.resolve_operand.ResolveError.TheVariants.{Operand};
ghost use Rattle.instruction.specs.ResolveOperand.{no_address, nearest, difference, operand_refusals, field_of, operand_answer, resolution_of, fields_answer};

use crate::answer::{Misfit, Tops};
use crate::instr::{Instr, Parts};
use crate::kind::{Kind, Kinds};
use crate::layout::Fields;
use crate::mode::Mode;
use crate::{range, signed};

// Why an operand is refused.
#[derive(Clone, Copy, Debug, PartialEq, Eq)]
pub enum OperandError {
    // 7: a number that does not fit.
    Unfit(Misfit),
    // 8: a number that is no address.
    NoAddress(i32),
    // 9: an offset that a short branch does not reach.
    TooFar(i32),
    // 10: an address on another page than the base.
    OtherPage(Tops),
}

impl From<Misfit> for OperandError {
    ghost from_gives = { λ m e. e ≡ Unfit m };

    fn from(m: Misfit) -> OperandError {
        OperandError::Unfit(m)
    }
}

// Why an instruction is not resolved.
#[derive(Clone, Copy, Debug, PartialEq, Eq)]
pub enum ResolveError {
    // 14: a base above 65,536.
    FarBase(u32),
    Operand(OperandError),
}

impl From<OperandError> for ResolveError {
    ghost from_gives = { λ w e. e ≡ Operand w };

    fn from(w: OperandError) -> ResolveError {
        ResolveError::Operand(w)
    }
}

// The address after an instruction, which may be the end of memory, and the mode in which its operands are resolved from there.
#[derive(Clone, Copy)]
struct Base {
    mode: Mode,
    address: u32,
    ghost in_memory: { address ≤ 65536 },
}

// A number that is its own field: immediate, d9, bit, Ri, and the address of Jmpf and Callf.
fn plain(n: u8, kind: Kind, z: i32) -> Result<i32, OperandError>
    ensures { operand_answer result ≡ judge (refuse (unfit kind z) 7 (pos n ∷ z ∷ []) ∷ []) z }
{
    Ok(kind.held(n, z)?)
}

impl Base {
    // The address of Jmp and Call: on the base's page, of which the field keeps twelve bits. The modes do not differ here.
    fn page(self, n: u8, z: i32) -> Result<i32, OperandError>
        ensures { operand_answer result ≡ judge (operand_refusals Unwrapped self.address n Page z) (field_of Unwrapped self.address Page z) }
    {
        let address = signed::code(Kind::Far.held(n, z)?);
        let there = address / 4096 % 16;
        let here = self.address / 4096 % 16;
        if there != here {
            return Err(OperandError::OtherPage(Tops {
                base: here as u8,
                address: there as u8,
            }));
        }
        Ok(signed::num(address % 4096))
    }

    // An address less the base, brought to -32,768 to 32,767 modulo 65,536.
    fn nearest(self, address: i32) -> i32
        requires { no_address address ≡ false }
        ensures { result ≡ nearest (address -ℤ pos self.address) }
    {
        let there = (signed::code(address) % 65536) as u16;
        let up = std::num::wrapping_sub_u16(there, (self.address % 65536) as u16);
        if up < 32_768 {
            up as i32
        } else {
            up as i32 - 65_536
        }
    }

    // How far an address lies from the base, as the mode has it.
    fn difference(self, address: i32) -> i32
        requires { no_address address ≡ false }
        ensures { result ≡ difference self.mode address self.address }
    {
        match self.mode {
            Mode::Unwrapped => signed::minus(address, self.address),
            Mode::Wrapping => self.nearest(address),
        }
    }

    // The address of a short branch, as a signed offset from the base.
    fn short(self, address: i32) -> Result<i32, OperandError>
        ensures { operand_answer result ≡ judge (operand_refusals self.mode self.address 0 Short address) (field_of self.mode self.address Short address) }
    {
        if range::is_outside(0, Instr::HIGHEST_ADDRESS, address) {
            return Err(OperandError::NoAddress(address));
        }
        let offset = self.difference(address);
        if range::is_outside(-128, 127, offset) {
            return Err(OperandError::TooFar(offset));
        }
        Ok(offset)
    }

    // The address of Brf and Callr, as an offset from the byte before the base that wraps at sixteen bits, in either mode.
    fn long(self, z: i32) -> Result<i32, OperandError>
        ensures { operand_answer result ≡ judge (operand_refusals Unwrapped self.address 0 Long z) (field_of Unwrapped self.address Long z) }
    {
        if range::is_outside(0, Instr::HIGHEST_ADDRESS, z) {
            return Err(OperandError::NoAddress(z));
        }
        let address = (signed::code(z) % 65536) as u16;
        let back = std::num::wrapping_sub_u16(address, (self.address % 65536) as u16);
        let offset = std::num::wrapping_add_u16(back, 1);
        Ok(signed::num(offset as u32))
    }

    // Operand n, counted from 1.
    fn operand(self, n: u8, kind: Kind, z: i32) -> Result<i32, OperandError>
        ensures { operand_answer result ≡ judge (operand_refusals self.mode self.address n kind z) (field_of self.mode self.address kind z) }
    {
        match kind {
            Kind::Absent => Ok(z),
            Kind::Page => self.page(n, z),
            Kind::Short => self.short(z),
            Kind::Long => self.long(z),
            Kind::Immediate | Kind::Direct | Kind::Register | Kind::BitNumber | Kind::Far => plain(
                n, kind, z,
            ),
        }
    }
}

// The fields of the operands of an instruction as written, or the first failure.
pub fn resolve(mode: Mode, kinds: Kinds, v: Parts, base: u32) -> Result<Fields, ResolveError>
    ensures { resolution_of result ≡ fields_answer mode kinds v.a v.b v.c base }
{
    if Instr::HIGHEST_BASE < base {
        return Err(ResolveError::FarBase(base));
    }
    let from = Base {
        mode,
        address: base,
    };
    let a = from.operand(1, kinds.a, v.a)?;
    let b = from.operand(2, kinds.b, v.b)?;
    let c = from.operand(3, kinds.c, v.c)?;
    Ok(Fields { a, b, c })
}
