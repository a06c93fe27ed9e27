// The words of the command line, each ended by byte 0.
ghost use Rattle.std.specs.Prelude.{◌≡◌, length};
ghost use Rattle.dis_text.specs.Asked.{asked_in};
ghost use Rattle.dis_text.specs.Held.{read_of, CountedRead};

use crate::asked::Asked;
use crate::message::DisError;
use crate::{asked, word};
use text::cut;

// What ends a word.
const WORD_END: u8 = 0;

// Reads all words into rooms for entries and pins: what they ask for, or the number of the word that may not stand where it stands; the file's
// name is the first.
pub fn ask(words: &[u8], entries: &mut [u32], pins: &mut [u32]) -> Result<Asked, DisError>
    requires { (length entries.old ≡ 256) × (length pins.old ≡ 256) }
    ensures pins_after { read_of result entries.new pins.new ≡ asked_in words.now }
    ensures counted_read { CountedRead result }
{
    let mut asked = Asked::new();
    let mut at: usize = 0;
    let mut k: usize = 2;
    // A word's bytes say where the next one starts, so there is no range to go through.
    while at < words.len() {
        let e = cut::end(words, at, WORD_END);
        let word = word::word_of(&words[at..e]).ok_or(DisError::Bad(k))?;
        asked = asked::take_word(asked, word, entries, pins).ok_or(DisError::Bad(k))?;
        k += 1;
        at = e + 1;
    }
    if asked.pinning {
        return Err(DisError::Bad(k));
    }
    Ok(asked)
}
