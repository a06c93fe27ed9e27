// The listing, the programs' texts, and an input taken apart, answered by replies.
ghost use Rattle.std.specs.Prelude.{◌≡◌, []};
ghost use Rattle.views.specs.View.{room_answer, room_after};
ghost use Rattle.listing.specs.Walk.{listing_answer, listing_room};
ghost use Rattle.list_text.specs.Output.{output_of};
ghost use Rattle.list_text.specs.Text.{parse_answer, parse_entries, parse_image};
ghost use Rattle.report_text.specs.Report.{report_answer, report_room};
ghost use Rattle.unlist_text.specs.Unlisted.{unlisted_of};
ghost use Rattle.c_answers.specs.Reply.{reply_of, count_values};
ghost use Rattle.c_answers.specs.Listing.{choice_of};
ghost use Rattle.c_answers.specs.Parsing.{input_values};

use crate::into_reply::IntoReply;
use crate::reply::Reply;
use instruction::Mode;
use listing::Arrivals;

fn choice(arrivals: u32) -> Arrivals
    ensures { result ≡ choice_of arrivals }
{
    match arrivals {
        0 => Arrivals::Declined,
        _ => Arrivals::Chosen,
    }
}

// Accepted: the number of bytes written.
pub fn listing(mode: Mode, image: &[u8], marks: &[u8], arrivals: u32, room: &mut [u8]) -> Reply
    ensures value { result ≡ reply_of count_values (listing_answer mode image.now marks.now (choice_of arrivals) room.old) }
    ensures room_after { room.new ≡ listing_room mode image.now marks.now (choice_of arrivals) room.old }
{
    listing::listing_with(mode, image, marks, choice(arrivals), room).into_reply()
}

// Accepted: the number of bytes written, those of a refusal's line among them.
pub fn list_text(text: &[u8], room: &mut [u8]) -> Reply
    ensures value { result ≡ reply_of count_values (room_answer [] (output_of text.now) room.old) }
    ensures room_after { room.new ≡ room_after [] (output_of text.now) room.old }
{
    list_text::list_text(text, room).into_reply()
}

// Accepted: the number of bytes written, those of `R` lines among them.
pub fn report_text(text: &[u8], room: &mut [u8]) -> Reply
    ensures value { result ≡ reply_of count_values (report_answer text.now room.old) }
    ensures room_after { room.new ≡ report_room text.now room.old }
{
    report_text::report_text(text, room).into_reply()
}

// Accepted: the number of bytes written, those of a refusal's line among them. The length comes as a number of 32 bits, as every number does
// that is no length of a slice.
pub fn unlist_text(text: &[u8], length: u32, room: &mut [u8]) -> Reply
    ensures value { result ≡ reply_of count_values (room_answer [] (unlisted_of text.now length) room.old) }
    ensures room_after { room.new ≡ room_after [] (unlisted_of text.now length) room.old }
{
    unlist_text::unlist_text(text, length as usize, room).into_reply()
}

// Accepted: how many entries, and how many bytes.
pub fn parse(text: &[u8], entries: &mut [u32], image: &mut [u8]) -> Reply
    ensures value { result ≡ reply_of input_values (parse_answer text.now entries.old image.old) }
    ensures entries_after { entries.new ≡ parse_entries text.now entries.old image.old }
    ensures image_after { image.new ≡ parse_image text.now entries.old image.old }
{
    list_text::parse(text, entries, image).into_reply()
}
