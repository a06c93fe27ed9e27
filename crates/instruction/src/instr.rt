// The instruction: the Rust's 70 variants in its order, each operand a plain number; taking one apart, and putting one together.
// Ported from src/instruction.rs of wtetzner/waterbear, and changed: `Instr<Ex, IM>` is an enum of numbers.
ghost use Rattle.std.specs.Prelude.{◌≡◌};
ghost use Rattle.instruction.specs.Encode.{form_in};
ghost use Rattle.instruction.specs.Forms.{form_at, size_of};
ghost use Rattle.instruction.specs.Grid.{rule_of};
ghost use Rattle.instruction.specs.Kinds.{three_of};
ghost use Rattle.instruction.specs.Parts.{parts_of, made_of};

use crate::kind::{Kind, Kinds};
use crate::{build, form, layout};

#[derive(Clone, Copy)]
pub enum Instr {
    Add_i8(i32),
    Add_d9(i32),
    Add_Ri(i32),
    Addc_i8(i32),
    Addc_d9(i32),
    Addc_Ri(i32),
    Sub_i8(i32),
    Sub_d9(i32),
    Sub_Ri(i32),
    Subc_i8(i32),
    Subc_d9(i32),
    Subc_Ri(i32),
    Inc_d9(i32),
    Inc_Ri(i32),
    Dec_d9(i32),
    Dec_Ri(i32),
    Mul,
    Div,
    And_i8(i32),
    And_d9(i32),
    And_Ri(i32),
    Or_i8(i32),
    Or_d9(i32),
    Or_Ri(i32),
    Xor_i8(i32),
    Xor_d9(i32),
    Xor_Ri(i32),
    Rol,
    Rolc,
    Ror,
    Rorc,
    Ld_d9(i32),
    Ld_Ri(i32),
    St_d9(i32),
    St_Ri(i32),
    Mov_d9(i32, i32),
    Mov_Rj(i32, i32),
    Ldc,
    Push(i32),
    Pop(i32),
    Xch_d9(i32),
    Xch_Ri(i32),
    Jmp(i32),
    Jmpf(i32),
    Br(i32),
    Brf(i32),
    Bz(i32),
    Bnz(i32),
    Bp(i32, i32, i32),
    Bpc(i32, i32, i32),
    Bn(i32, i32, i32),
    Dbnz_d9(i32, i32),
    Dbnz_Ri(i32, i32),
    Be_i8(i32, i32),
    Be_d9(i32, i32),
    Be_Rj(i32, i32, i32),
    Bne_i8(i32, i32),
    Bne_d9(i32, i32),
    Bne_Rj(i32, i32, i32),
    Call(i32),
    Callf(i32),
    Callr(i32),
    Ret,
    Reti,
    Clr1(i32, i32),
    Set1(i32, i32),
    Not1(i32, i32),
    Nop,
    Ldf,
    Stf,
}

// The number of a form, 0 to 69 in the order of `Instr`, and the operands in the order shown, 0 where there is none.
#[derive(Clone, Copy)]
pub struct Parts {
    pub form: u8,
    pub a: i32,
    pub b: i32,
    pub c: i32,
}

impl Parts {
    // The 70 arms of `Instr::apart` call it, where a literal would take four lines each.
    pub fn new(form: u8, a: i32, b: i32, c: i32) -> Self
        ensures { result ≡ record { form = form; a = a; b = b; c = c } }
    {
        Self { form, a, b, c }
    }

    // A number that no form has has no operands and no bytes.
    #[tactic(auto, using(crate::proofs::NoForm::no_kinds))]
    pub fn kinds(self) -> Kinds
        ensures { result ≡ three_of (form_at self.form).shape }
    {
        if Instr::FORMS <= self.form {
            return Kinds::new(Kind::Absent, Kind::Absent, Kind::Absent);
        }
        let s = form::shape_of(self.form);
        s.kinds()
    }

    // The number of bytes.
    #[tactic(auto, using(crate::proofs::NoForm::no_bytes, crate::proofs::Shapes::sized))]
    pub fn size(self) -> usize
        ensures { result ≡ size_of (form_at self.form) }
    {
        if Instr::FORMS <= self.form {
            return 0;
        }
        layout::size(form::shape_of(self.form))
    }
}

impl Instr {
    // A base is the address after an instruction, and may be the end of memory.
    pub const HIGHEST_BASE: u32 = 65_536;

    pub const HIGHEST_ADDRESS: i32 = 65_535;

    pub const FORMS: u8 = 70;

    // One of the three functions that go through all forms: the instruction taken apart.
    #[tactic(auto, unfolding(crate::specs::Parts::parts_of, crate::specs::Forms::form_named, crate::specs::Forms::forms))]
    pub fn apart(self) -> Parts
        ensures { result ≡ parts_of self }
    {
        match self {
            Instr::Add_i8(a) => Parts::new(0, a, 0, 0),
            Instr::Add_d9(a) => Parts::new(1, a, 0, 0),
            Instr::Add_Ri(a) => Parts::new(2, a, 0, 0),
            Instr::Addc_i8(a) => Parts::new(3, a, 0, 0),
            Instr::Addc_d9(a) => Parts::new(4, a, 0, 0),
            Instr::Addc_Ri(a) => Parts::new(5, a, 0, 0),
            Instr::Sub_i8(a) => Parts::new(6, a, 0, 0),
            Instr::Sub_d9(a) => Parts::new(7, a, 0, 0),
            Instr::Sub_Ri(a) => Parts::new(8, a, 0, 0),
            Instr::Subc_i8(a) => Parts::new(9, a, 0, 0),
            Instr::Subc_d9(a) => Parts::new(10, a, 0, 0),
            Instr::Subc_Ri(a) => Parts::new(11, a, 0, 0),
            Instr::Inc_d9(a) => Parts::new(12, a, 0, 0),
            Instr::Inc_Ri(a) => Parts::new(13, a, 0, 0),
            Instr::Dec_d9(a) => Parts::new(14, a, 0, 0),
            Instr::Dec_Ri(a) => Parts::new(15, a, 0, 0),
            Instr::Mul => Parts::new(16, 0, 0, 0),
            Instr::Div => Parts::new(17, 0, 0, 0),
            Instr::And_i8(a) => Parts::new(18, a, 0, 0),
            Instr::And_d9(a) => Parts::new(19, a, 0, 0),
            Instr::And_Ri(a) => Parts::new(20, a, 0, 0),
            Instr::Or_i8(a) => Parts::new(21, a, 0, 0),
            Instr::Or_d9(a) => Parts::new(22, a, 0, 0),
            Instr::Or_Ri(a) => Parts::new(23, a, 0, 0),
            Instr::Xor_i8(a) => Parts::new(24, a, 0, 0),
            Instr::Xor_d9(a) => Parts::new(25, a, 0, 0),
            Instr::Xor_Ri(a) => Parts::new(26, a, 0, 0),
            Instr::Rol => Parts::new(27, 0, 0, 0),
            Instr::Rolc => Parts::new(28, 0, 0, 0),
            Instr::Ror => Parts::new(29, 0, 0, 0),
            Instr::Rorc => Parts::new(30, 0, 0, 0),
            Instr::Ld_d9(a) => Parts::new(31, a, 0, 0),
            Instr::Ld_Ri(a) => Parts::new(32, a, 0, 0),
            Instr::St_d9(a) => Parts::new(33, a, 0, 0),
            Instr::St_Ri(a) => Parts::new(34, a, 0, 0),
            Instr::Mov_d9(a, b) => Parts::new(35, a, b, 0),
            Instr::Mov_Rj(a, b) => Parts::new(36, a, b, 0),
            Instr::Ldc => Parts::new(37, 0, 0, 0),
            Instr::Push(a) => Parts::new(38, a, 0, 0),
            Instr::Pop(a) => Parts::new(39, a, 0, 0),
            Instr::Xch_d9(a) => Parts::new(40, a, 0, 0),
            Instr::Xch_Ri(a) => Parts::new(41, a, 0, 0),
            Instr::Jmp(a) => Parts::new(42, a, 0, 0),
            Instr::Jmpf(a) => Parts::new(43, a, 0, 0),
            Instr::Br(a) => Parts::new(44, a, 0, 0),
            Instr::Brf(a) => Parts::new(45, a, 0, 0),
            Instr::Bz(a) => Parts::new(46, a, 0, 0),
            Instr::Bnz(a) => Parts::new(47, a, 0, 0),
            Instr::Bp(a, b, c) => Parts::new(48, a, b, c),
            Instr::Bpc(a, b, c) => Parts::new(49, a, b, c),
            Instr::Bn(a, b, c) => Parts::new(50, a, b, c),
            Instr::Dbnz_d9(a, b) => Parts::new(51, a, b, 0),
            Instr::Dbnz_Ri(a, b) => Parts::new(52, a, b, 0),
            Instr::Be_i8(a, b) => Parts::new(53, a, b, 0),
            Instr::Be_d9(a, b) => Parts::new(54, a, b, 0),
            Instr::Be_Rj(a, b, c) => Parts::new(55, a, b, c),
            Instr::Bne_i8(a, b) => Parts::new(56, a, b, 0),
            Instr::Bne_d9(a, b) => Parts::new(57, a, b, 0),
            Instr::Bne_Rj(a, b, c) => Parts::new(58, a, b, c),
            Instr::Call(a) => Parts::new(59, a, 0, 0),
            Instr::Callf(a) => Parts::new(60, a, 0, 0),
            Instr::Callr(a) => Parts::new(61, a, 0, 0),
            Instr::Ret => Parts::new(62, 0, 0, 0),
            Instr::Reti => Parts::new(63, 0, 0, 0),
            Instr::Clr1(a, b) => Parts::new(64, a, b, 0),
            Instr::Set1(a, b) => Parts::new(65, a, b, 0),
            Instr::Not1(a, b) => Parts::new(66, a, b, 0),
            Instr::Nop => Parts::new(67, 0, 0, 0),
            Instr::Ldf => Parts::new(68, 0, 0, 0),
            Instr::Stf => Parts::new(69, 0, 0, 0),
        }
    }

    // The form that a first byte names, with these operands.
    pub fn with_first(first: u8, a: i32, b: i32, c: i32) -> Instr
        ensures { result ≡ made_of (record { form = rule_of first; a = a; b = b; c = c }) }
    {
        build::build(Parts::new(form::lookup(first), a, b, c))
    }

    pub fn kinds(self) -> Kinds
        ensures { result ≡ three_of (form_in self).shape }
    {
        self.apart().kinds()
    }

    // The number of bytes.
    pub fn size(self) -> usize
        ensures { result ≡ size_of (form_in self) }
    {
        self.apart().size()
    }
}
