// What a replay answers.
ghost use Rattle.std.specs.Prelude.{◌≡◌};
ghost use Rattle.instruction.specs.Answer.{judge};
ghost use Rattle.views.specs.View.{checked_of};
ghost use Rattle.replay.specs.Answers.{replayed_of, lent_refusals, told_of, closed_of};
ghost use Rattle.replay.specs.declared.answer.ReplayError.TheVariants.{View};

use crate::log::Log;
use crate::next;
use views::ViewError;

#[derive(Clone, Copy, Debug, PartialEq, Eq)]
pub struct Totals {
    pub lines: u64,
    pub interrupts: u64,
    pub free: u64,
}

#[derive(Clone, Copy, Debug, PartialEq, Eq)]
pub enum ReplayError {
    // 1, 2, 6 and 11: what is lent.
    View(ViewError),
    // 18 to 21: the line's number.
    Malformed(u64),
    Untraced(u64),
    Forbidden(u64),
    Full(u64),
}

impl From<ViewError> for ReplayError {
    ghost from_gives = { λ e r. r ≡ View e };

    fn from(e: ViewError) -> ReplayError {
        ReplayError::View(e)
    }
}

// The refusals 1, 2, 6 and 11, which counts shorter than the image give.
pub fn check(image: &[u8], marks: &[u8], counts: &[u64]) -> Result<(), ViewError>
    ensures { checked_of result ≡ judge (lent_refusals image.now marks.now counts.now) tt }
{
    views::check_room(image, marks, counts.len(), image.len())
}

impl Log {
    // The totals, or the refusal that is held.
    pub fn told(self) -> Result<Totals, ReplayError>
        ensures { replayed_of result ≡ told_of self }
    {
        let line = next::one_more(self.lines);
        match self.refusal {
            0 => Ok(Totals {
                lines: next::at_most(self.lines),
                interrupts: next::at_most(self.interrupts),
                free: next::at_most(self.free),
            }),
            19 => Err(ReplayError::Untraced(line)),
            20 => Err(ReplayError::Forbidden(line)),
            21 => Err(ReplayError::Full(line)),
            _ => Err(ReplayError::Malformed(line)),
        }
    }

    // The same at the end of the log, where a partial line is malformed.
    pub fn close(self) -> Result<Totals, ReplayError>
        ensures { replayed_of result ≡ closed_of self }
    {
        if self.held == 0 {
            return self.told();
        }
        if self.refusal != 0 {
            return self.told();
        }
        Err(ReplayError::Malformed(next::one_more(self.lines)))
    }
}
