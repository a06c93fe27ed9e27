// The exported calls of the views.
ghost use Rattle.std.specs.Prelude.{◌≡◌, length};
ghost use Rattle.views.specs.Mask.{mask_answer, mask_room};
ghost use Rattle.views.specs.Labels.{labels_answer, labels_room};
ghost use Rattle.views.specs.DataRun.{data_run};
ghost use Rattle.views.specs.Overlaps.{overlaps_answer, overlaps_room};
ghost use Rattle.arrivals.specs.Arrivals.{arrivals_answer, arrivals_room};
ghost use Rattle.c_answers.specs.Modes.{mode_of};
ghost use Rattle.c_answers.specs.Reply.{five, refusal_number, values_of, count_values};

// Accepted: the number of bytes written.
#[unsafe(no_mangle)]
pub extern "C" fn pw_mask(image: &[u8], marks: &[u8], mask: &mut [u8], answer: &mut [i64; 5]) -> u32
    ensures value { result ≡ refusal_number (mask_answer image.now marks.now mask.old) }
    ensures answer_after { answer.new ≡ values_of count_values (mask_answer image.now marks.now mask.old) }
    ensures mask_after { mask.new ≡ mask_room image.now marks.now mask.old }
{
    pottagewing::pw_mask(image, marks, mask, answer)
}

// Accepted: the number of bytes written.
#[unsafe(no_mangle)]
pub extern "C" fn pw_target_marks(
    mode: u32,
    image: &[u8],
    marks: &[u8],
    room: &mut [u8],
    answer: &mut [i64; 5],
) -> u32
    ensures value { result ≡ refusal_number (labels_answer (mode_of mode) image.now marks.now room.old) }
    ensures answer_after { answer.new ≡ values_of count_values (labels_answer (mode_of mode) image.now marks.now room.old) }
    ensures room_after { room.new ≡ labels_room (mode_of mode) image.now marks.now room.old }
{
    pottagewing::pw_target_marks(mode, image, marks, room, answer)
}

// Accepted: the number of positions written.
#[unsafe(no_mangle)]
pub extern "C" fn pw_overlaps(
    image: &[u8],
    marks: &[u8],
    p: u32,
    room: &mut [u32],
    answer: &mut [i64; 5],
) -> u32
    ensures value { result ≡ refusal_number (overlaps_answer image.now marks.now p room.old) }
    ensures answer_after { answer.new ≡ values_of count_values (overlaps_answer image.now marks.now p room.old) }
    ensures room_after { room.new ≡ overlaps_room image.now marks.now p room.old }
{
    pottagewing::pw_overlaps(image, marks, p, room, answer)
}

// Accepted: the number of positions written.
#[unsafe(no_mangle)]
pub extern "C" fn pw_arrivals(
    mode: u32,
    image: &[u8],
    marks: &[u8],
    p: u32,
    room: &mut [u32],
    answer: &mut [i64; 5],
) -> u32
    ensures value { result ≡ refusal_number (arrivals_answer (mode_of mode) image.now marks.now p room.old) }
    ensures answer_after { answer.new ≡ values_of count_values (arrivals_answer (mode_of mode) image.now marks.now p room.old) }
    ensures room_after { room.new ≡ arrivals_room (mode_of mode) image.now marks.now p room.old }
{
    pottagewing::pw_arrivals(mode, image, marks, p, room, answer)
}

// Never refused: the length of the run, which begins at p.
#[unsafe(no_mangle)]
pub extern "C" fn pw_data_run(image: &[u8], mask: &[u8], p: u32, answer: &mut [i64; 5]) -> u32
    ensures value { result ≡ 0 }
    ensures answer_after { answer.new ≡ five (count_values (length (data_run image.now mask.now p))) }
{
    pottagewing::pw_data_run(image, mask, p, answer)
}
