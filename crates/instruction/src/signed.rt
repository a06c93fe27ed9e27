// The functions that meet a number's sign. All the rest works on unsigned numbers.
ghost use Rattle.std.specs.Prelude.{◌≡◌, ◌<◌, ◌≤◌, false, pos, ◌-ℤ◌};
ghost use Rattle.instruction.specs.Code.{short_of, code_of};
ghost use Rattle.instruction.specs.Range.{outside};

// A number that fits sixteen bits, as an operand.
pub fn num(n: u32) -> i32
    requires { n < 65536 }
    ensures { result ≡ pos n }
{
    n as i32
}

// A byte read as a number from -128 to 127.
pub fn short(p: u8) -> i32
    ensures { result ≡ short_of p }
{
    if p < 128 { p as i32 } else { (p as i32) - 256 }
}

// The number that a field puts into its pattern: 256 more where it is below 0.
pub fn code(z: i32) -> u32
    ensures { result ≡ code_of z }
{
    if z < 0 {
        (z + 256).max(0) as u32
    } else {
        z as u32
    }
}

// An address less the base.
pub fn minus(address: i32, base: u32) -> i32
    requires { (outside (pos 0) (pos 65535) address ≡ false) × (base ≤ 65536) }
    ensures { result ≡ address -ℤ pos base }
{
    address - (base as i32)
}
