// Empty lines of a text: how many end in it, and that none does.
ghost use Rattle.std.specs.Prelude.{true, ◌≡◌, ◌≤◌, ◌<◌, length};
ghost use Rattle.report_text.specs.Empty.{ends_empty, empty_lines, is_quiet};

use text::cut;

// As many bytes are looked at at a time: so few that a byte counts their empty lines, and those after the first are a multiple of 64.
pub const PART: usize = 193;

fn ends_empty(before: u8, b: u8) -> bool
    ensures { result ≡ ends_empty before b }
{
    before == cut::LINE_END && b == cut::LINE_END
}

// How many empty lines end in a part after its first byte. They are counted in a byte, so that many bytes are looked at at once.
fn in_part(part: &[u8]) -> u8
    requires { length part.now ≤ 256 }
    ensures { result ≡ empty_lines part.now }
{
    let mut n: u8 = 0;
    for i in 1..part.len() {
        n += ends_empty(part[i - 1], part[i]) as u8;
    }
    n
}

// The same of a text, part by part. Each begins with the last byte of the one before, as no iterator over parts has it.
pub fn empty_lines(text: &[u8]) -> usize
    ensures { result ≡ empty_lines text.now }
{
    let mut n: usize = 0;
    let mut left = text;
    while PART < left.len() {
        n += in_part(&left[..PART]) as usize;
        left = &left[PART - 1..];
    }
    n + in_part(left) as usize
}

// Whether no empty line ends in a part; it begins a line if `fresh` says so.
pub fn is_quiet(fresh: bool, part: &[u8]) -> bool
    requires { (0 < length part.now) × (length part.now ≤ 256) }
    ensures { result ≡ true → is_quiet fresh part.now ≡ true }
{
    if fresh && part[0] == cut::LINE_END {
        return false;
    }
    in_part(part) == 0
}
