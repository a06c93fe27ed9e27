// Numbers of a list, in digits.
ghost use Rattle.std.specs.Prelude.{◌≡◌, ◌<◌, IfSome, unwrap_or};
ghost use Rattle.runner.specs.Digits.{hex_digit_of, decimal_digit_of, digit_of, number_from, byte_of};

// What an upper-case hex digit stands for.
pub fn hex_digit(b: u8) -> Option<u8>
    ensures value { result ≡ hex_digit_of b }
    ensures below { IfSome result (λ d. d < 16) }
{
    match b {
        b'0'..=b'9' => Some(b - b'0'),
        b'A'..=b'F' => Some(b - b'A' + 10),
        _ => None,
    }
}

// What a decimal digit stands for.
pub fn decimal_digit(b: u8) -> Option<u8>
    ensures value { result ≡ decimal_digit_of b }
    ensures below { IfSome result (λ d. d < 10) }
{
    match b {
        b'0'..=b'9' => Some(b - b'0'),
        _ => None,
    }
}

fn hex_or_zero(b: u8) -> u8
    ensures value { result ≡ unwrap_or (hex_digit_of b) 0 }
    ensures below { result < 16 }
{
    hex_digit(b).unwrap_or(0)
}

// The byte of two hex digits, each 0 where it is none; 0 where there are not two.
pub fn byte(pair: &[u8]) -> u8
    ensures { result ≡ byte_of pair.now }
{
    match pair {
        [high, low] => hex_or_zero(*high) * 16 + hex_or_zero(*low),
        _ => 0,
    }
}

// By which digits a number is read.
#[derive(Clone, Copy, Debug, PartialEq, Eq)]
pub enum Numeral {
    Decimal,
    Hex,
}

impl Numeral {
    // What a digit stands for.
    pub fn digit(self, b: u8) -> Option<u8>
        ensures value { result ≡ digit_of self b }
        ensures below { IfSome result (λ d. d < 16) }
    {
        match self {
            Numeral::Decimal => decimal_digit(b),
            Numeral::Hex => hex_digit(b),
        }
    }
}

// A decimal number, each of whose digits stands for what it stands for in this numeral, or for 0; once it is above 10^12, nothing more is read.
pub fn number_by(digits: &[u8], numeral: Numeral) -> usize
    ensures { result ≡ number_from (digit_of numeral) 0 digits.now }
{
    let mut value: usize = 0;
    for b in digits {
        if 1_000_000_000_000 < value {
            return value;
        }
        value = value * 10 + usize::from(numeral.digit(*b).unwrap_or(0));
    }
    value
}
