// A listing read back, line by line or whole, answered by replies. The length comes as a number of 32 bits, as every number does that is no length of a slice.
ghost use Rattle.std.specs.Prelude.{◌≡◌};
ghost use Rattle.read_back.specs.Back.{back_answer, back_image, back_marks};
ghost use Rattle.read_back.specs.Read.{read_answer};
ghost use Rattle.c_answers.specs.Reply.{reply_of, count_values};
ghost use Rattle.c_answers.specs.Places.{place_in, line_values, words_after};

use crate::into_reply::IntoReply;
use crate::place_words;
use crate::reply::Reply;
use instruction::Mode;

// Accepted: the number of lines read.
pub fn read_back(mode: Mode, text: &[u8], length: u32, image: &mut [u8], marks: &mut [u8]) -> Reply
    ensures value { result ≡ reply_of count_values (back_answer mode text.now length image.old marks.old) }
    ensures image_after { image.new ≡ back_image mode text.now length image.old marks.old }
    ensures marks_after { marks.new ≡ back_marks mode text.now length image.old marks.old }
{
    read_back::read_back(mode, text, length as usize, image, marks).into_reply()
}

// Accepted: the letter, the position, and how many positions or bytes follow; the words are the next place. All are 0 at the end.
pub fn read_line(mode: Mode, text: &[u8], words: &mut [u64; 4]) -> Reply
    ensures value { result ≡ reply_of line_values (read_answer mode text.now (place_in words.old)) }
    ensures words_after { words.new ≡ words_after (read_answer mode text.now (place_in words.old)) words.old }
{
    let read = read_back::read_line(mode, text, place_words::place_of(words));
    if let Ok(Some((_, next))) = read {
        *words = place_words::words_of(next);
    }
    read.into_reply()
}
