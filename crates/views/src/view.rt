// What every view over marks answers, and the refusals that all of them share.
ghost use Rattle.std.specs.Prelude.{◌≡◌};
ghost use Rattle.instruction.specs.Answer.{judge};
ghost use Rattle.views.specs.View.{checked_of, view_refusals, room_refusals};
ghost use Rattle.views.specs.declared.view.ViewError.TheVariants.{Size};

use crate::damage;
use marks::SizeError;

#[derive(Clone, Copy, Debug, PartialEq, Eq)]
pub enum ViewError {
    // 1 and 2.
    Size(SizeError),
    // 6: the lowest damaged position.
    Damaged(u32),
    // 11: how much is needed.
    NoRoom(usize),
}

impl From<SizeError> for ViewError {
    ghost from_gives = { λ e r. r ≡ Size e };

    fn from(e: SizeError) -> ViewError {
        ViewError::Size(e)
    }
}

// The refusals 1, 2 and 6.
pub fn check(image: &[u8], marks: &[u8]) -> Result<(), ViewError>
    ensures { checked_of result ≡ judge (view_refusals image.now marks.now) tt }
{
    marks::check_sizes(image, marks)?;
    for p in damage::sound_to(image, marks)..image.len() {
        if damage::is_damaged(image, marks, p as u32) {
            return Err(ViewError::Damaged(p as u32));
        }
    }
    Ok(())
}

// These and 11, of a view that needs so much of a room.
pub fn check_room(image: &[u8], marks: &[u8], room: usize, need: usize) -> Result<(), ViewError>
    ensures { checked_of result ≡ judge (room_refusals image.now marks.now room need) tt }
{
    check(image, marks)?;
    if room < need {
        return Err(ViewError::NoRoom(need));
    }
    Ok(())
}
