// The queries of a packed map: they lend the image's length and the words.
ghost use Rattle.std.specs.Prelude.{◌≡◌};
ghost use Rattle.instruction.specs.Answer.{judge};
ghost use Rattle.map.specs.Ask.{asked_of, allowed_of, ask_refusals, test_answer, count_answer, first_answer};

use crate::{bits, find, tell};
use targets::Image;

#[derive(Clone, Copy, Debug, PartialEq, Eq)]
pub enum AskError {
    // 1: the image's length.
    LongImage(usize),
    // 11: how many words are needed.
    NoRoom(usize),
    // 17: the position, or the stretch's start.
    Outside(u32),
}

// The refusals of a query at p.
fn check(words: &[u64], length: usize, outside: bool, p: u32) -> Result<(), AskError>
    ensures { allowed_of result ≡ judge (ask_refusals words.now length outside p) tt }
{
    if Image::LIMIT < length {
        return Err(AskError::LongImage(length));
    }
    let need = bits::words_for(length);
    if words.len() < need {
        return Err(AskError::NoRoom(need));
    }
    if outside {
        return Err(AskError::Outside(p));
    }
    Ok(())
}

// 1 where the position is code, else 0.
pub fn test(words: &[u64], length: usize, p: u32) -> Result<u32, AskError>
    ensures { asked_of result ≡ test_answer words.now length p }
{
    check(words, length, length <= p as usize, p)?;
    Ok(find::is_code(words, p) as u32)
}

// How many positions of a stretch are code. It excludes its end.
pub fn count(words: &[u64], length: usize, begin: u32, end: u32) -> Result<u32, AskError>
    ensures { asked_of result ≡ count_answer words.now length begin end }
{
    let outside = (end < begin) | (length < end as usize);
    check(words, length, outside, begin)?;
    Ok(tell::ones_in(words, begin, end))
}

// The first data byte from this position on, or else the image's length.
pub fn first_data(words: &[u64], length: usize, p: u32) -> Result<u32, AskError>
    ensures { asked_of result ≡ first_answer words.now length p }
{
    check(words, length, length <= p as usize, p)?;
    Ok(find::next_data(words, p, length as u32))
}
