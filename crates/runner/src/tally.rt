// How many cases of a list hold.
ghost use Rattle.std.specs.Prelude.{◌≡◌, ◌+◌, ◌-◌, ◌^◌, min, if◌then◌else◌};

use std::fmt;

#[derive(Clone, Copy, Debug, PartialEq, Eq, Default)]
pub struct Tally {
    pub held: u64,
    pub all: u64,
}

impl Tally {
    // Counts one more case. A count that is full stays so.
    pub fn count(&mut self, holds: bool)
        ensures all { self.new.all ≡ min (self.old.all + 1) (2 ^ 64 - 1) }
        ensures held { self.new.held ≡ (if holds then min (self.old.held + 1) (2 ^ 64 - 1) else self.old.held) }
    {
        self.all = self.all.saturating_add(1);
        if holds {
            self.held = self.held.saturating_add(1);
        }
    }
}

impl fmt::Display for Tally {
    fn fmt<W: fmt::Write>(&self, f: &mut fmt::Formatter<W>) -> fmt::Result {
        write!(f, "{} of {} hold", self.held, self.all)
    }
}
