// What is printed of a listing read back.
ghost use Rattle.std.specs.Prelude.{◌≡◌, [], ◌∷◌, pos, Err};
ghost use Rattle.instruction.specs.Answer.{refused};
ghost use Rattle.read_back.specs.Back.{restored_of};
ghost use Rattle.views.specs.View.{viewed_of, room_answer, room_after};
ghost use Rattle.unlist_text.specs.Unlisted.{unlisted_of};

use crate::{line, rooms};
use instruction::Mode;
use list_text::refusal;
use marks::SizeError;
use read_back::RestoreError;
use views::ViewError;

// The number of a refusal, and its value.
fn told(e: RestoreError) -> (usize, usize)
    ensures { refused result.0 (pos result.1 ∷ []) ≡ restored_of (Err e) }
{
    match e {
        RestoreError::Size(SizeError::LongImage(n)) => (1, n),
        RestoreError::Size(SizeError::ShortMarks(n)) => (2, n),
        RestoreError::NoRoom(n) => (11, n),
        RestoreError::Malformed(k) => (15, k),
        RestoreError::PastEnd(k) => (16, k),
    }
}

// Turns a listing of an image of so many bytes into image lines, or into the line of a refusal: how many bytes were written, or 11 with how
// many are needed.
pub fn unlist_text(text: &[u8], length: usize, room: &mut [u8]) -> Result<usize, ViewError>
    ensures result_value { viewed_of result ≡ room_answer [] (unlisted_of text.now length) room.old }
    ensures room_after { room.new ≡ room_after [] (unlisted_of text.now length) room.old }
{
    let mut image = rooms::bytes();
    let mut marks = rooms::bytes();
    match read_back::read_back(Mode::Unwrapped, text, length, &mut image, &mut marks) {
        Ok(_) => line::put_image(rooms::first(&image, length), room),
        Err(e) => {
            let (number, value) = told(e);
            refusal::put_value(number, value, room)
        }
    }
}
