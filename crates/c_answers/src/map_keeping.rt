// The packed map built and kept up, answered by replies.
ghost use Rattle.std.specs.Prelude.{◌≡◌};
ghost use Rattle.map.specs.Build.{build_answer, build_words};
ghost use Rattle.map.specs.Update.{update_answer, update_words};
ghost use Rattle.c_answers.specs.Reply.{reply_of, count_values};

use crate::into_reply::IntoReply;
use crate::reply::Reply;

// Accepted: the number of words written.
pub fn map_build(image: &[u8], marks: &[u8], words: &mut [u64]) -> Reply
    ensures value { result ≡ reply_of count_values (build_answer image.now marks.now words.old) }
    ensures words_after { words.new ≡ build_words image.now marks.now words.old }
{
    map::build_map(image, marks, words).into_reply()
}

// Accepted: the number of bits set, which is the instruction's size.
pub fn map_update(image: &[u8], marks: &[u8], words: &mut [u64], p: u32) -> Reply
    ensures value { result ≡ reply_of count_values (update_answer image.now marks.now words.old p) }
    ensures words_after { words.new ≡ update_words image.now marks.now words.old p }
{
    map::update_map(image, marks, words, p).into_reply()
}
