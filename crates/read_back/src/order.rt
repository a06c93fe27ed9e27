// The order of lines: positions may not fall; at one position `L`, `O`, `A`, `I` in this order, each at most once, or one `D` alone.
ghost use Rattle.std.specs.Prelude.{◌≡◌};
ghost use Rattle.read_back.specs.Order.{rank_of, follows, line_after};

use crate::place::{Place, Record};

const ALONE: u8 = 5;

// Where a letter stands in the order; 0 for any other byte, as the definition `rank_of` has it.
pub fn rank(letter: u8) -> u8
    ensures { result ≡ rank_of letter }
{
    match letter {
        b'L' => 1,
        b'O' => 2,
        b'A' => 3,
        b'I' => 4,
        b'D' => ALONE,
        _ => 0,
    }
}

// Whether a record may stand at a place.
pub fn follows(place: Place, r: Record) -> bool
    ensures { result ≡ follows place r }
{
    let before = rank(place.letter);
    if before == 0 {
        return true;
    }
    if place.last < r.position {
        return true;
    }
    if place.last != r.position {
        return false;
    }
    let here = rank(r.letter);
    before < here && here < ALONE
}

// The number of the next line; the last number that there is stays.
pub fn line_after(line: usize) -> usize
    ensures { result ≡ line_after line }
{
    if line < usize::MAX {
        return line + 1;
    }
    line
}
