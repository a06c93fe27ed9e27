// Numbers of the list, in hex digits.
ghost use Rattle.std.specs.Prelude.{◌<◌};

use text::four;

// What is left after some digits.
pub fn after(digits: &[u8], n: usize) -> &[u8] {
    digits.get(n..).unwrap_or(&[])
}

// Four digits.
fn four_of(digits: &[u8]) -> u64
    ensures { result < 65536 }
{
    u64::from(four::four_of(digits) % 65_536)
}

// The position in the first four digits.
pub fn place(digits: &[u8]) -> usize
    ensures { result < 65536 }
{
    four_of(digits) as usize
}

// Eight digits.
pub fn of(digits: &[u8]) -> u32 {
    (four_of(digits) * 65_536 + four_of(after(digits, 4))) as u32
}

// Sixteen digits.
pub fn long_of(digits: &[u8]) -> u64 {
    u64::from(of(digits)) * 0x1_0000_0000 + u64::from(of(after(digits, 8)))
}
