// One word of the command line.
ghost use Rattle.std.specs.Prelude.{◌≡◌};
ghost use Rattle.dis_text.specs.Word.{value_in, number_in, word_of};

use text::hex;
use text::same::same;

#[derive(Clone, Copy)]
pub enum Word {
    // 1 to 4 hex digits.
    Number(u32),
    Wraps,
    NoArrivals,
    Pin,
}

// The value of a hex digit of either case; 65,536 for any other byte, as the definition `value_in` has it.
fn value(b: u8) -> u32
    ensures { result ≡ value_in b }
{
    if b'a' <= b && b <= b'f' {
        return b as u32 - 87;
    }
    hex::value(b)
}

// The number that a word stands for, if it is 1 to 4 hex digits.
fn number(word: &[u8]) -> Option<u32>
    ensures { result ≡ number_in word.now }
{
    if word.is_empty() || 4 < word.len() {
        return None;
    }
    let mut n: u32 = 0;
    for b in word {
        let d = value(*b);
        if 16 <= d {
            return None;
        }
        n = n * 16 + d;
    }
    Some(n)
}

// What a word asks for, if anything.
pub fn word_of(word: &[u8]) -> Option<Word>
    ensures { result ≡ word_of word.now }
{
    if same(word, b"--wrapping") {
        return Some(Word::Wraps);
    }
    if same(word, b"--no-arrivals") {
        return Some(Word::NoArrivals);
    }
    if same(word, b"--pin") {
        return Some(Word::Pin);
    }
    let n = number(word)?;
    Some(Word::Number(n))
}
