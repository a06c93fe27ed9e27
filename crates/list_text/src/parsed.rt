// What is answered of an input.
ghost use Rattle.std.specs.Prelude.{◌≡◌};

// What an input holds: how many entries, and how many image bytes.
#[derive(Clone, Copy)]
pub struct Input {
    pub entries: usize,
    pub bytes: usize,
}

impl Input {
    pub const MOST_ENTRIES: usize = 256;

    pub const MOST_BYTES: usize = 16_384;

    pub const MOST_IN_LINE: usize = 32;

    // A call that the pages name, for callers that are no crate of the repository.
    pub fn new(entries: usize, bytes: usize) -> Self
        ensures { (result.entries ≡ entries) × (result.bytes ≡ bytes) }
    {
        Self { entries, bytes }
    }
}

// Why an input is refused.
#[derive(Clone, Copy)]
pub enum ParseError {
    // 13: the first bad line, from 1.
    Malformed(usize),
    // 11: what is needed.
    NoRoom(Input),
}
