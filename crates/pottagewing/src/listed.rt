// The exported calls of the listing, of one line of it, of the programs' texts, and of a listing read back.
ghost use Rattle.std.specs.Prelude.{◌≡◌, []};
ghost use Rattle.views.specs.View.{room_answer, room_after};
ghost use Rattle.listing.specs.Walk.{listing_answer, listing_room};
ghost use Rattle.read_back.specs.Back.{back_answer, back_image, back_marks};
ghost use Rattle.read_back.specs.Read.{read_answer};
ghost use Rattle.list_text.specs.Output.{output_of};
ghost use Rattle.list_text.specs.Text.{parse_answer, parse_entries, parse_image};
ghost use Rattle.report_text.specs.Report.{report_answer, report_room};
ghost use Rattle.unlist_text.specs.Unlisted.{unlisted_of};
ghost use Rattle.c_answers.specs.Modes.{mode_of};
ghost use Rattle.c_answers.specs.Reply.{refusal_number, values_of, count_values};
ghost use Rattle.c_answers.specs.Listing.{choice_of};
ghost use Rattle.c_answers.specs.CodeLine.{code_line_answer, code_line_room};
ghost use Rattle.c_answers.specs.Parsing.{input_values};
ghost use Rattle.c_answers.specs.Places.{place_in, line_values, words_after};

// Accepted: the number of bytes written.
pub fn pw_listing(
    mode: u32,
    image: &[u8],
    marks: &[u8],
    arrivals: u32,
    room: &mut [u8],
    answer: &mut [i64; 5],
) -> u32
    ensures value { result ≡ refusal_number (listing_answer (mode_of mode) image.now marks.now (choice_of arrivals) room.old) }
    ensures answer_after { answer.new
        ≡ values_of count_values (listing_answer (mode_of mode) image.now marks.now (choice_of arrivals) room.old) }
    ensures room_after { room.new ≡ listing_room (mode_of mode) image.now marks.now (choice_of arrivals) room.old }
{
    c_answers::listing(c_answers::mode(mode), image, marks, arrivals, room).give(answer)
}

// Accepted: the number of bytes written.
pub fn pw_code_line(
    mode: u32,
    position: u32,
    bytes: &[u8],
    room: &mut [u8],
    answer: &mut [i64; 5],
) -> u32
    ensures value { result ≡ refusal_number (code_line_answer (mode_of mode) position bytes.now room.old) }
    ensures answer_after { answer.new ≡ values_of count_values (code_line_answer (mode_of mode) position bytes.now room.old) }
    ensures room_after { room.new ≡ code_line_room (mode_of mode) position bytes.now room.old }
{
    c_answers::code_line(c_answers::mode(mode), position, bytes, room).give(answer)
}

// Accepted: the number of bytes written, those of a refusal's line among them.
pub fn pw_list_text(text: &[u8], room: &mut [u8], answer: &mut [i64; 5]) -> u32
    ensures value { result ≡ refusal_number (room_answer [] (output_of text.now) room.old) }
    ensures answer_after { answer.new ≡ values_of count_values (room_answer [] (output_of text.now) room.old) }
    ensures room_after { room.new ≡ room_after [] (output_of text.now) room.old }
{
    c_answers::list_text(text, room).give(answer)
}

// Accepted: how many entries, and how many bytes.
pub fn pw_parse(text: &[u8], entries: &mut [u32], image: &mut [u8], answer: &mut [i64; 5]) -> u32
    ensures value { result ≡ refusal_number (parse_answer text.now entries.old image.old) }
    ensures answer_after { answer.new ≡ values_of input_values (parse_answer text.now entries.old image.old) }
    ensures entries_after { entries.new ≡ parse_entries text.now entries.old image.old }
    ensures image_after { image.new ≡ parse_image text.now entries.old image.old }
{
    c_answers::parse(text, entries, image).give(answer)
}

// Accepted: the number of bytes written, those of `R` lines among them.
pub fn pw_report_text(text: &[u8], room: &mut [u8], answer: &mut [i64; 5]) -> u32
    ensures value { result ≡ refusal_number (report_answer text.now room.old) }
    ensures answer_after { answer.new ≡ values_of count_values (report_answer text.now room.old) }
    ensures room_after { room.new ≡ report_room text.now room.old }
{
    c_answers::report_text(text, room).give(answer)
}

// Accepted: the number of lines read.
pub fn pw_read_back(
    mode: u32,
    text: &[u8],
    length: u32,
    image: &mut [u8],
    marks: &mut [u8],
    answer: &mut [i64; 5],
) -> u32
    ensures value { result ≡ refusal_number (back_answer (mode_of mode) text.now length image.old marks.old) }
    ensures answer_after { answer.new ≡ values_of count_values (back_answer (mode_of mode) text.now length image.old marks.old) }
    ensures image_after { image.new ≡ back_image (mode_of mode) text.now length image.old marks.old }
    ensures marks_after { marks.new ≡ back_marks (mode_of mode) text.now length image.old marks.old }
{
    c_answers::read_back(c_answers::mode(mode), text, length, image, marks).give(answer)
}

// Accepted: the letter, the position, and how many positions or bytes follow, and the words are the next place; all values 0 at the end.
pub fn pw_read_line(mode: u32, text: &[u8], place: &mut [u64; 4], answer: &mut [i64; 5]) -> u32
    ensures value { result ≡ refusal_number (read_answer (mode_of mode) text.now (place_in place.old)) }
    ensures answer_after { answer.new ≡ values_of line_values (read_answer (mode_of mode) text.now (place_in place.old)) }
    ensures place_after { place.new ≡ words_after (read_answer (mode_of mode) text.now (place_in place.old)) place.old }
{
    c_answers::read_line(c_answers::mode(mode), text, place).give(answer)
}

// Accepted: the number of bytes written, those of a refusal's line among them.
pub fn pw_unlist_text(text: &[u8], length: u32, room: &mut [u8], answer: &mut [i64; 5]) -> u32
    ensures value { result ≡ refusal_number (room_answer [] (unlisted_of text.now length) room.old) }
    ensures answer_after { answer.new ≡ values_of count_values (room_answer [] (unlisted_of text.now length) room.old) }
    ensures room_after { room.new ≡ room_after [] (unlisted_of text.now length) room.old }
{
    c_answers::unlist_text(text, length, room).give(answer)
}
