// The views, answered by replies.
ghost use Rattle.std.specs.Prelude.{◌≡◌, length};
ghost use Rattle.views.specs.Mask.{mask_answer, mask_room};
ghost use Rattle.views.specs.Labels.{labels_answer, labels_room};
ghost use Rattle.views.specs.DataRun.{data_run};
ghost use Rattle.views.specs.Overlaps.{overlaps_answer, overlaps_room};
ghost use Rattle.arrivals.specs.Arrivals.{arrivals_answer, arrivals_room};
ghost use Rattle.c_answers.specs.Reply.{reply, reply_of, count_values};

use crate::into_reply::IntoReply;
use crate::reply::Reply;
use instruction::Mode;

// Accepted: the number of bytes written.
pub fn mask(image: &[u8], marks: &[u8], mask: &mut [u8]) -> Reply
    ensures value { result ≡ reply_of count_values (mask_answer image.now marks.now mask.old) }
    ensures mask_after { mask.new ≡ mask_room image.now marks.now mask.old }
{
    views::build_byte_mask(image, marks, mask).into_reply()
}

// Accepted: the number of bytes written.
pub fn target_marks(mode: Mode, image: &[u8], marks: &[u8], room: &mut [u8]) -> Reply
    ensures value { result ≡ reply_of count_values (labels_answer mode image.now marks.now room.old) }
    ensures room_after { room.new ≡ labels_room mode image.now marks.now room.old }
{
    views::target_marks(mode, image, marks, room).into_reply()
}

// Accepted: the number of positions written.
pub fn overlaps(image: &[u8], marks: &[u8], p: u32, room: &mut [u32]) -> Reply
    ensures value { result ≡ reply_of count_values (overlaps_answer image.now marks.now p room.old) }
    ensures room_after { room.new ≡ overlaps_room image.now marks.now p room.old }
{
    views::find_overlaps(image, marks, p, room).into_reply()
}

// Accepted: the number of positions written.
pub fn arrivals(mode: Mode, image: &[u8], marks: &[u8], p: u32, room: &mut [u32]) -> Reply
    ensures value { result ≡ reply_of count_values (arrivals_answer mode image.now marks.now p room.old) }
    ensures room_after { room.new ≡ arrivals_room mode image.now marks.now p room.old }
{
    arrivals::arrivals(mode, image, marks, p, room).into_reply()
}

// Never refused: the length of the run, which begins at p.
pub fn data_run(image: &[u8], mask: &[u8], p: u32) -> Reply
    ensures { result ≡ reply 0 (count_values (length (data_run image.now mask.now p))) }
{
    views::data_run(image, mask, p).len().into_reply()
}
