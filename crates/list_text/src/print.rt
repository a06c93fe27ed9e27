// What the listing program prints.
ghost use Rattle.std.specs.Prelude.{◌≡◌, [], ◌≤◌, length};
ghost use Rattle.views.specs.View.{viewed_of, room_answer, room_after};
ghost use Rattle.instruction.specs.declared.mode.Mode.TheVariants.{Unwrapped};
ghost use Rattle.listing.specs.Walk.{listing_answer, listing_room};
ghost use Rattle.listing.specs.declared.tabbed.Arrivals.TheVariants.{Declined};
ghost use Rattle.list_text.specs.Output.{output_text, traced_text, output_of};

use crate::parsed::ParseError;
use crate::{read, refusal, rooms};
use instruction::Mode;
use marks::SizeError;
use trace::RunError;
use views::ViewError;

// The listing that the program prints: without arrivals.
fn show(image: &[u8], marks: &[u8], room: &mut [u8]) -> Result<usize, ViewError>
    ensures result_value { viewed_of result ≡ listing_answer Unwrapped image.now marks.now Declined room.old }
    ensures room_after { room.new ≡ listing_room Unwrapped image.now marks.now Declined room.old }
{
    listing::listing_declined(Mode::Unwrapped, image, marks, room)
}

// The listing of a run in this image from these entries, or the line of a refusal.
fn list_image(image: &[u8], entries: &[u32], room: &mut [u8]) -> Result<usize, ViewError>
    requires { length image.now ≤ 16384 }
    ensures result_value { viewed_of result ≡ room_answer [] (output_text (traced_text image.now entries.now)) room.old }
    ensures room_after { room.new ≡ room_after [] (output_text (traced_text image.now entries.now)) room.old }
{
    let n = image.len();
    let mut marks = rooms::bytes();
    let mut order = rooms::positions();
    match trace::run::run(
        Mode::Unwrapped,
        image,
        &mut marks[..n],
        &mut order[..n],
        entries,
        &[],
        n as u32,
    ) {
        Ok(_) => show(image, &marks[..n], room),
        Err(RunError::Size(SizeError::LongImage(_))) => refusal::put_number(1, room),
        Err(RunError::Size(SizeError::ShortMarks(_))) => refusal::put_number(2, room),
        Err(RunError::ShortOrder(_)) => refusal::put_number(3, room),
        Err(RunError::Cut(c)) => refusal::put_value(5, c.missing as usize, room),
    }
}

// The whole output of the listing program for this input: how many bytes were written, or 11 with how many are needed.
pub fn list_text(text: &[u8], room: &mut [u8]) -> Result<usize, ViewError>
    ensures result_value { viewed_of result ≡ room_answer [] (output_of text.now) room.old }
    ensures room_after { room.new ≡ room_after [] (output_of text.now) room.old }
{
    let mut entries = rooms::entries();
    let mut image = rooms::bytes();
    match read::parse(text, &mut entries, &mut image) {
        Ok(c) => list_image(&image[..c.bytes], &entries[..c.entries], room),
        Err(ParseError::Malformed(_)) => refusal::put_number(13, room),
        Err(ParseError::NoRoom(_)) => refusal::put_number(11, room),
    }
}
