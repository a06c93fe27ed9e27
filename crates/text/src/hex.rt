// Upper-case hex digits.
ghost use Rattle.std.specs.Prelude.{◌≡◌, true, ◌+◌, ◌*◌, ◌<◌, ◌≤◌, get_or};
ghost use Rattle.text.specs.Hex.{is_digit, digit_of, value_of, all_hex};

// Whether a byte is a digit. All four bounds are asked, so that the compiler makes no jump for each.
pub fn is_digit(b: u8) -> bool
    ensures { result ≡ is_digit b }
{
    ((b'0' <= b) & (b <= b'9')) | ((b'A' <= b) & (b <= b'F'))
}

// The value of a byte that is a digit, by its low four bits: those of A are 1.
#[tactic(auto, using(crate::proofs::Digits::digit_by_bits))]
fn value_of(b: u8) -> u32
    requires { is_digit b ≡ true }
    ensures { (result ≡ digit_of b) × (result < 16) }
{
    (b % 16) as u32 + 9 * (b / 64) as u32
}

// The value of a digit; 0 for any other byte.
#[tactic(auto, using(crate::proofs::Digits::no_value))]
pub fn digit(b: u8) -> u32
    ensures { (result ≡ digit_of b) × (result < 16) }
{
    if is_digit(b) { value_of(b) } else { 0 }
}

// The value of a digit; 65,536 for any other byte. All digits are written out, so that the compiler makes a load of it. It stays beside
// `digit`, since a load is what four digits alone take least time by, and bits are what the compiler takes many digits at a time by.
#[tactic(auto, unfolding(crate::specs::Hex::digit_of))]
pub fn value(b: u8) -> u32
    ensures { (result ≡ value_of b) × (result ≤ 65536) }
{
    match b {
        b'0' => 0,
        b'1' => 1,
        b'2' => 2,
        b'3' => 3,
        b'4' => 4,
        b'5' => 5,
        b'6' => 6,
        b'7' => 7,
        b'8' => 8,
        b'9' => 9,
        b'A' => 10,
        b'B' => 11,
        b'C' => 12,
        b'D' => 13,
        b'E' => 14,
        b'F' => 15,
        _ => 65_536,
    }
}

// The value of the digit at a place; 0 past the end.
#[tactic(auto, using(crate::proofs::Digits::none_at))]
pub fn digit_at(s: &[u8], i: usize) -> u32
    ensures { (result ≡ digit_of (get_or s.now i 0)) × (result < 16) }
{
    if i < s.len() { digit(s[i]) } else { 0 }
}

// The byte that two digits stand for.
pub fn pair(a: u8, b: u8) -> u8
    ensures { result ≡ digit_of a * 16 + digit_of b }
{
    (digit(a) * 16 + digit(b)) as u8
}

// Whether every byte is a digit. All are looked at, so that the compiler takes many at a time.
pub fn is_hex(s: &[u8]) -> bool
    ensures { result ≡ all_hex s.now }
{
    let mut all = true;
    for b in s {
        all &= is_digit(*b);
    }
    all
}
