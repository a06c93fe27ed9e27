// Bytes in upper-case hex, two digits each.
ghost use Rattle.std.specs.Prelude.{◌≡◌, ◌+◌, ◌-◌, ◌≤◌, ◌<◌};
ghost use Rattle.std.proofs.lemmas.List.Edits.{sets};
ghost use Rattle.text.specs.Bytes.{bytes_of, is_bytes};

use crate::hex;

// Whether a text is 1 to `most` bytes.
pub fn is_bytes(s: &[u8], most: usize) -> bool
    ensures { result ≡ is_bytes most s.now }
{
    let n = s.len() / 2;
    if s.len() != n * 2 || n == 0 || most < n {
        return false;
    }
    hex::is_hex(s)
}

// How many of k bytes a room of n has room for, from a place on.
fn fitting(k: usize, n: usize, at: usize) -> usize
    ensures { (result ≤ k) × (result ≤ n - at) × (result < k → n ≤ at + result) }
{
    k.min(n.saturating_sub(at))
}

// Writes the bytes of these digits into a room from a place on; what falls past its end is not written. How many fit is asked before the
// loop, so that the compiler takes many at a time.
pub fn put(digits: &[u8], room: &mut [u8], at: usize)
    ensures { room.new ≡ sets room.old at (bytes_of digits.now) }
{
    let n = fitting(digits.len() / 2, room.len(), at);
    for i in 0..n {
        room[at + i] = hex::pair(digits[2 * i], digits[2 * i + 1]);
    }
}
