// The queries of a packed map, answered by replies. The length comes in 32 bits, as every number does that is no length of a slice.
ghost use Rattle.std.specs.Prelude.{◌≡◌};
ghost use Rattle.map.specs.Ask.{test_answer, count_answer, first_answer};
ghost use Rattle.c_answers.specs.Reply.{reply_of, count_values};

use crate::into_reply::IntoReply;
use crate::reply::Reply;

// Accepted: 1 where the position is code, else 0.
pub fn map_test(words: &[u64], length: u32, p: u32) -> Reply
    ensures { result ≡ reply_of count_values (test_answer words.now length p) }
{
    map::test(words, length as usize, p).into_reply()
}

// Accepted: how many positions of the stretch are code.
pub fn map_count(words: &[u64], length: u32, begin: u32, end: u32) -> Reply
    ensures { result ≡ reply_of count_values (count_answer words.now length begin end) }
{
    map::count(words, length as usize, begin, end).into_reply()
}

// Accepted: the first data byte's position, or the image's length.
pub fn map_first_data(words: &[u64], length: u32, p: u32) -> Reply
    ensures { result ≡ reply_of count_values (first_answer words.now length p) }
{
    map::first_data(words, length as usize, p).into_reply()
}
