// Marks, one byte for each position. Any byte may stand in lent marks, so that a mark stays a number.
ghost use Rattle.std.specs.Prelude.{◌≡◌, set, slice_index};
ghost use Rattle.reach.specs.Mark.{traced_mark};

#[derive(Clone, Copy)]
pub struct Mark;

impl Mark {
    pub const UNTOUCHED: u8 = 0;

    pub const WAITING: u8 = 1;

    pub const TRACED: u8 = 2;
    // A traced Jmpf under the exception.
    pub const FLASH: u8 = 3;

    // Kept off the trace.
    pub const PINNED: u8 = 4;

    pub const HIGHEST: u8 = 4;

    // The mark of a position; one that is missing counts as untouched.
    pub fn at(marks: &[u8], p: u32) -> u8
        ensures { result ≡ slice_index marks.now p }
    {
        marks.get(p as usize).copied().unwrap_or(Self::UNTOUCHED)
    }

    // Sets the mark of a position; past the end there is none.
    pub fn put(marks: &mut [u8], p: u32, mark: u8)
        ensures { marks.new ≡ set marks.old p mark }
    {
        let at = p as usize;
        if at < marks.len() {
            marks[at] = mark;
        }
    }

    // Whether a mark says traced.
    pub fn is_traced(mark: u8) -> bool
        ensures { result ≡ traced_mark mark }
    {
        matches!(mark, Self::TRACED | Self::FLASH)
    }
}
