// Four upper-case hex digits, which stand for a number.
ghost use Rattle.std.specs.Prelude.{◌≡◌};
ghost use Rattle.text.specs.Four.{is_four, four_of, four_in};

use crate::hex;

// Whether a field is four digits.
#[tactic(auto, unfolding(crate::specs::Four::is_four))]
pub fn is_four(field: &[u8]) -> bool
    ensures { result ≡ is_four field.now }
{
    field.len() == 4 && hex::is_hex(field)
}

// The number that four digits stand for.
#[tactic(auto, unfolding(crate::specs::Four::four_of))]
pub fn four_of(field: &[u8]) -> u32
    ensures { result ≡ four_of field.now }
{
    let high = hex::digit_at(field, 0) * 16 + hex::digit_at(field, 1);
    (high * 16 + hex::digit_at(field, 2)) * 16 + hex::digit_at(field, 3)
}

// The number that a field of four digits stands for; 65,536, which none does, where it is no such field, as the definition `four_in` has
// it. A byte that is no digit makes the sum that high, wherever it stands.
pub fn read_four(field: &[u8]) -> u32
    ensures { result ≡ four_in field.now }
{
    if field.len() != 4 {
        return 65_536;
    }
    let high = hex::value(field[0]) * 16 + hex::value(field[1]);
    let sum = (high * 16 + hex::value(field[2])) * 16 + hex::value(field[3]);
    if 65_536 <= sum {
        return 65_536;
    }
    sum
}
