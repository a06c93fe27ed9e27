// A single step.
ghost use Rattle.std.specs.Prelude.{◌≡◌, ◌≤◌, ◌<◌, length};
ghost use Rattle.trace.specs.Step.{stepped_of, step_answer, step_marks, whole_answer, whole_marks, not_stepped};
ghost use Rattle.targets.specs.Ways.{places_in};
ghost use Rattle.marks.specs.Taken.{going_to};
ghost use Rattle.trace.specs.declared.step.StepError.TheVariants.{Size};

use crate::damage;
use instruction::{CutOff, Mode};
use marks::{Mark, SizeError};
use targets::{NotWhole, Places};

// The new mark, and how many positions became waiting.
#[derive(Clone, Copy, Debug, PartialEq, Eq)]
pub struct Advance {
    pub mark: u8,
    pub waiting: u32,
}

impl Advance {
    pub fn new(mark: u8, waiting: u32) -> Self
        ensures { (result.mark ≡ mark) × (result.waiting ≡ waiting) }
    {
        Self { mark, waiting }
    }
}

#[derive(Clone, Copy, Debug, PartialEq, Eq)]
pub enum StepError {
    // 1 and 2.
    Size(SizeError),
    // 4: the mark, 0 where the position is not inside.
    NotWaiting(u8),
    // 5
    Cut(CutOff),
    // 6: the position.
    Damaged(u32),
}

impl From<SizeError> for StepError {
    ghost from_gives = { λ e r. r ≡ Size e };

    fn from(e: SizeError) -> StepError {
        StepError::Size(e)
    }
}

impl From<NotWhole> for StepError {
    ghost from_gives = { λ e r. r ≡ not_stepped e };

    fn from(e: NotWhole) -> StepError {
        match e {
            NotWhole::Cut(c) => StepError::Cut(c),
            NotWhole::Outside => StepError::NotWaiting(0),
        }
    }
}

// How many positions were noted.
fn count(noted: Places) -> u32
    ensures { result ≡ length (places_in noted) }
{
    match noted {
        Places::Nothing => 0,
        Places::First(_) => 1,
        Places::Both(_, _) => 2,
    }
}

// A step at a waiting position with these targets.
fn step_whole(image: &[u8], marks: &mut [u8], p: u32, to: Places) -> Result<Advance, StepError>
    ensures result_value { stepped_of result ≡ whole_answer (going_to image.now (places_in to)) image.now marks.old p }
    ensures marks_after { marks.new ≡ whole_marks (going_to image.now (places_in to)) image.now marks.old p }
{
    damage::check(image, marks, p, to).map_err(StepError::Damaged)?;
    let taken = marks::take_up(image, marks, p, to);
    Ok(Advance {
        mark: taken.mark,
        waiting: count(taken.noted),
    })
}

// Takes up one waiting position.
pub fn step(mode: Mode, image: &[u8], marks: &mut [u8], p: u32) -> Result<Advance, StepError>
    ensures result_value { stepped_of result ≡ step_answer mode image.now marks.old p }
    ensures marks_after { marks.new ≡ step_marks mode image.now marks.old p }
{
    marks::check_sizes(image, marks)?;
    let at = p as usize;
    if image.len() <= at {
        return Err(StepError::NotWaiting(0));
    }
    let mark = marks[at];
    if Mark::HIGHEST < mark {
        return Err(StepError::Damaged(p));
    }
    if mark != Mark::WAITING {
        return Err(StepError::NotWaiting(mark));
    }
    let to = targets::ways_at(mode, image, p)?;
    step_whole(image, marks, p, to)
}
