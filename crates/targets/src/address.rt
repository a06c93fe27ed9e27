// The address that an instruction names, and its targets from it.
// Ported from `targets`, `rel8` and `rel16` of src/disasm.rs of wtetzner/waterbear, and changed: targets are signed numbers, and the arms
// for 70 forms go by the flow and by the kind of the last operand.
ghost use Rattle.std.specs.Prelude.{◌≡◌, ◌≤◌, false, pos, int_lt, unsigned_abs};
ghost use Rattle.instruction.specs.Answer.{accepted};
ghost use Rattle.instruction.specs.Range.{unfit};
ghost use Rattle.instruction.specs.declared.kind.Kind.TheVariants.{Page, Short, Long};
ghost use Rattle.instruction.specs.Encode.{fit_answer};
ghost use Rattle.targets.specs.Targets.{in_mode, address_of, address_in, targets_in, targets_named};

use crate::target::Targets;
use crate::{operand, place};
use instruction::{Flow, Instr, Kind, Mode};

// Where an instruction ends, which is not the beginning of memory and may be its end, and the mode in which targets are taken from there.
#[derive(Clone, Copy)]
pub struct Next {
    pub mode: Mode,
    pub at: u32,
    ghost in_memory: { (1 ≤ at) × (at ≤ 65536) },
}

// An operand's number that is not below 0.
fn unsigned(z: i32) -> u32
    requires { int_lt z (pos 0) ≡ false }
    ensures { result ≡ unsigned_abs z }
{
    z as u32
}

fn signed(n: u32) -> i32
    requires { n ≤ 65536 }
    ensures { result ≡ pos n }
{
    n as i32
}

impl Next {
    // Next as a target.
    fn target(self) -> i32
        ensures { result ≡ in_mode self.mode (pos self.at) }
    {
        signed(place::next_place(self.mode, self.at))
    }

    // Next plus a signed offset.
    fn short(self, z: i32) -> i32
        requires { unfit Short z ≡ false }
        ensures { result ≡ address_of self.mode self.at Short z }
    {
        let sum = self.at as i32 + z;
        match self.mode {
            Mode::Unwrapped => sum,
            Mode::Wrapping => sum.rem_euclid(65_536),
        }
    }

    // The byte before next plus an offset, wrapped at sixteen bits.
    fn long(self, z: i32) -> i32
        requires { unfit Long z ≡ false }
        ensures { result ≡ address_of self.mode self.at Long z }
    {
        signed(operand::behind(self.at, unsigned(z)))
    }

    // Twelve bits on next's page.
    fn page(self, z: i32) -> i32
        requires { unfit Page z ≡ false }
        ensures { result ≡ address_of self.mode self.at Page z }
    {
        signed(operand::on_page(self.at, unsigned(z)))
    }

    // The address that an operand names.
    pub fn address_of(self, kind: Kind, z: i32) -> i32
        requires { unfit kind z ≡ false }
        ensures { result ≡ address_of self.mode self.at kind z }
    {
        match kind {
            Kind::Page => self.page(z),
            Kind::Short => self.short(z),
            Kind::Long => self.long(z),
            Kind::Absent
            | Kind::Immediate
            | Kind::Direct
            | Kind::Register
            | Kind::BitNumber
            | Kind::Far => z,
        }
    }

    // The address that an instruction names: its last operand's.
    pub fn address_in(self, instr: Instr) -> i32
        requires { fit_answer instr ≡ accepted tt }
        ensures { result ≡ address_in self.mode self.at instr }
    {
        let v = instr.apart();
        let k = instr.kinds();
        if k.c.is_given() {
            return self.address_of(k.c, v.c);
        }
        if k.b.is_given() {
            return self.address_of(k.b, v.b);
        }
        self.address_of(k.a, v.a)
    }

    // The targets of an instruction whose fields are in range and that ends here.
    pub fn ways(self, instr: Instr) -> Targets
        requires { fit_answer instr ≡ accepted tt }
        ensures { targets_named result ≡ targets_in self.mode self.at instr }
    {
        match instr.flow() {
            Flow::Stop => Targets::Nowhere,
            Flow::Next => Targets::One(self.target()),
            Flow::Jump => Targets::One(self.address_in(instr)),
            Flow::Branch => Targets::Two(self.address_in(instr), self.target()),
        }
    }
}
