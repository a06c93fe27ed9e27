// A place in a listing, and what its line says. A letter stays the byte that it is in the text, since C holds both as numbers; each has a
// `new`, which docs/CLAIMS.md names for callers.
ghost use Rattle.std.specs.Prelude.{◌≡◌};
ghost use Rattle.read_back.specs.Order.{start};

// Where a line begins, its number from 1, and what the order of lines asks: the position and the letter of the line before, or a letter
// that begins no line where there is none before.
#[derive(Clone, Copy)]
pub struct Place {
    pub at: usize,
    pub line: usize,
    pub last: u32,
    pub letter: u8,
}

impl Place {
    pub fn new(at: usize, line: usize, last: u32, letter: u8) -> Self
        ensures { (result.at ≡ at) × (result.line ≡ line) × (result.last ≡ last) × (result.letter ≡ letter) }
    {
        Self {
            at,
            line,
            last,
            letter,
        }
    }

    // The first line of a text.
    pub fn start() -> Self
        ensures { result ≡ start }
    {
        Self {
            at: 0,
            line: 1,
            last: 0,
            letter: 0,
        }
    }
}

// What a line says: its letter, its position, and how many positions (`O`, `A`) or bytes (`I`, `D`) follow.
#[derive(Clone, Copy)]
pub struct Record {
    pub letter: u8,
    pub position: u32,
    pub count: usize,
}

impl Record {
    // The bytes that a `D` line holds at most.
    pub const MOST_DATA: usize = 16;

    pub fn new(letter: u8, position: u32, count: usize) -> Self
        ensures { (result.letter ≡ letter) × (result.position ≡ position) × (result.count ≡ count) }
    {
        Self {
            letter,
            position,
            count,
        }
    }
}
