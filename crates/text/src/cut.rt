// A text cut at each byte of one kind.
ghost use Rattle.std.specs.Prelude.{◌≡◌, ◌+◌, length, drop};
ghost use Rattle.text.specs.Cut.{up_to};

pub const LINE_END: u8 = 10;

pub const TAB: u8 = 9;

// Where the piece that starts at `at` ends: at the next byte s, or at the end of the text; past the end at `at` itself.
pub fn end(text: &[u8], at: usize, s: u8) -> usize
    ensures { result ≡ at + length (up_to s (drop at text.now)) }
{
    if text.len() <= at {
        return at;
    }
    let rest = &text[at..];
    at + rest.iter().position(|b| *b == s).unwrap_or(rest.len())
}
