// The checksum of POSIX `cksum`.
ghost use Rattle.std.specs.Prelude.{◌≡◌, ◌<◌, ◌^◌};
ghost use Rattle.runner.specs.Sum.{sum_after_bit, sum_after_byte, sum_after_bytes, length_bytes, checksum_of};

const POLYNOMIAL: u32 = 0x04C1_1DB7;

const HIGHEST_BIT: u32 = 0x8000_0000;

fn after_bit(sum: u32) -> u32
    ensures { result ≡ sum_after_bit sum }
{
    if sum < HIGHEST_BIT {
        return sum * 2;
    }
    ((sum - HIGHEST_BIT) * 2) ^ POLYNOMIAL
}

fn after_byte(sum: u32, b: u8) -> u32
    ensures { result ≡ sum_after_byte sum b }
{
    let mixed = sum ^ (u32::from(b) << 24);
    (0..8u32).fold(mixed, |sum, _| after_bit(sum))
}

fn after_bytes(sum: u32, bytes: &[u8]) -> u32
    ensures { result ≡ sum_after_bytes sum bytes.now }
{
    bytes.iter().fold(sum, |sum, b| after_byte(sum, *b))
}

// The bytes of the length follow, the lowest first, up to the last that is not 0.
fn after_length(sum: u32, n: usize) -> u32
    ensures { result ≡ sum_after_bytes sum (length_bytes n) }
{
    let bytes = n.to_le_bytes();
    let width = bytes.len() - n.leading_zeros() as usize / 8;
    after_bytes(sum, &bytes[..width])
}

// The checksum of these bytes, and of how many they are.
pub fn checksum(bytes: &[u8]) -> u32
    ensures { result ≡ checksum_of bytes.now }
{
    !after_length(after_bytes(0, bytes), bytes.len())
}
