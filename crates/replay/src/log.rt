// The record that a replay in blocks hands on by value: totals, the last position, a refusal, and the bytes of a partial line.
ghost use Rattle.std.specs.Prelude.{◌≡◌};
ghost use Rattle.replay.specs.Log.{begun};

#[derive(Clone, Copy, Debug, PartialEq, Eq)]
pub struct Log {
    pub lines: u64,
    pub interrupts: u64,
    pub free: u64,
    // The position of the last line, where there was one.
    pub last: u64,
    // The number of the refusal; 0 where there was none. It is a number since C holds the record as seven words.
    pub refusal: u64,
    // How many bytes of a partial line are held, and those bytes, the first one lowest.
    pub held: u64,
    pub part: u64,
}

impl Log {
    // Before the first byte.
    pub fn new() -> Self
        ensures { result ≡ begun }
    {
        Self {
            lines: 0,
            interrupts: 0,
            free: 0,
            last: 0,
            refusal: 0,
            held: 0,
            part: 0,
        }
    }
}
