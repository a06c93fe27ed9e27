// What several answers carry when a call says no.
ghost use Rattle.std.specs.Prelude.{◌≡◌};

// Refusal 5: an instruction that the end cuts off, and how many of its bytes are missing.
#[derive(Clone, Copy, Debug, PartialEq, Eq)]
pub struct CutOff {
    pub position: u32,
    pub first: u8,
    pub missing: u8,
}

impl CutOff {
    pub fn new(position: u32, first: u8, missing: u8) -> Self
        ensures { (result.position ≡ position) × (result.first ≡ first) × (result.missing ≡ missing) }
    {
        Self {
            position,
            first,
            missing,
        }
    }
}

// Refusal 7: an operand, counted from 1 in the order shown, whose number does not fit.
#[derive(Clone, Copy, Debug, PartialEq, Eq)]
pub struct Misfit {
    pub operand: u8,
    pub value: i32,
}

impl Misfit {
    pub fn new(operand: u8, value: i32) -> Self
        ensures { (result.operand ≡ operand) × (result.value ≡ value) }
    {
        Self { operand, value }
    }
}

// Refusal 10: the top four bits of the base and of the address, which differ.
#[derive(Clone, Copy, Debug, PartialEq, Eq)]
pub struct Tops {
    pub base: u8,
    pub address: u8,
}

impl Tops {
    pub fn new(base: u8, address: u8) -> Self
        ensures { (result.base ≡ base) × (result.address ≡ address) }
    {
        Self { base, address }
    }
}
