// Operands: the kind of each, and the 16 combinations of kinds that the forms have.
ghost use Rattle.std.specs.Prelude.{◌≡◌};
ghost use Rattle.instruction.specs.Kinds.{is_given, three_of};

// What an operand is, and so which numbers fit it and how it is resolved.
#[derive(Clone, Copy)]
pub enum Kind {
    Absent,
    // `i8`: a byte.
    Immediate,
    // `d9`: an address of memory, nine bits.
    Direct,
    // `Ri`: one of the four indirection registers.
    Register,
    BitNumber,
    // Jmp, Call: twelve bits, within next's page.
    Page,
    // Jmpf, Callf: sixteen bits.
    Far,
    // A branch's signed offset from next.
    Short,
    // Brf, Callr: a 16-bit offset from the byte before next, which wraps.
    Long,
}

impl Kind {
    // Whether there is an operand.
    pub fn is_given(self) -> bool
        ensures { result ≡ is_given self }
    {
        !matches!(self, Kind::Absent)
    }
}

#[derive(Clone, Copy)]
pub struct Kinds {
    pub a: Kind,
    pub b: Kind,
    pub c: Kind,
}

impl Kinds {
    // The arms of `Shape::kinds` call it, where a literal would take three lines each.
    pub fn new(a: Kind, b: Kind, c: Kind) -> Self
        ensures { result ≡ record { a = a; b = b; c = c } }
    {
        Self { a, b, c }
    }
}

// The operands of a form, in the order shown, by the names that the Rust gives them: `D9B3R8` for `(d9, b3, r8)`.
#[derive(Clone, Copy)]
pub enum Shape {
    Bare,
    Imm,
    D9,
    Ri,
    ImmD9,
    ImmRi,
    D9B3,
    A12,
    A16,
    R16,
    R8,
    D9B3R8,
    D9R8,
    RiR8,
    ImmR8,
    RiImmR8,
}

fn one(a: Kind) -> Kinds
    ensures { result ≡ record { a = a; b = Kind.Absent; c = Kind.Absent } }
{
    Kinds::new(a, Kind::Absent, Kind::Absent)
}

fn two(a: Kind, b: Kind) -> Kinds
    ensures { result ≡ record { a = a; b = b; c = Kind.Absent } }
{
    Kinds::new(a, b, Kind::Absent)
}

impl Shape {
    #[tactic(auto, unfolding(crate::specs::Kinds::kinds_of))]
    pub fn kinds(self) -> Kinds
        ensures { result ≡ three_of self }
    {
        match self {
            Shape::Bare => one(Kind::Absent),
            Shape::Imm => one(Kind::Immediate),
            Shape::D9 => one(Kind::Direct),
            Shape::Ri => one(Kind::Register),
            Shape::ImmD9 => two(Kind::Immediate, Kind::Direct),
            Shape::ImmRi => two(Kind::Immediate, Kind::Register),
            Shape::D9B3 => two(Kind::Direct, Kind::BitNumber),
            Shape::A12 => one(Kind::Page),
            Shape::A16 => one(Kind::Far),
            Shape::R16 => one(Kind::Long),
            Shape::R8 => one(Kind::Short),
            Shape::D9B3R8 => Kinds::new(Kind::Direct, Kind::BitNumber, Kind::Short),
            Shape::D9R8 => two(Kind::Direct, Kind::Short),
            Shape::RiR8 => two(Kind::Register, Kind::Short),
            Shape::ImmR8 => two(Kind::Immediate, Kind::Short),
            Shape::RiImmR8 => Kinds::new(Kind::Register, Kind::Immediate, Kind::Short),
        }
    }
}
