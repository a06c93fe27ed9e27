// The whole input: judged in one pass, then written in another, so that a refusal changes nothing.
ghost use Rattle.std.specs.Prelude.{◌≡◌, ◌≤◌, length, drop};
ghost use Rattle.std.proofs.lemmas.List.Edits.{sets};
ghost use Rattle.instruction.specs.Answer.{judge, laid};
ghost use Rattle.text.specs.Cut.{lines};
ghost use Rattle.list_text.specs.Bytes.{bytes_in_lines};
ghost use Rattle.list_text.specs.Text.{counts, counts_of, entries_of, image_of, image_refusals, input_refusals};
ghost use Rattle.list_text.specs.Text.{parsed_of, parse_answer, parse_entries, parse_image};

use crate::parsed::{Input, ParseError};
use crate::{bytes, entries};
use text::bytes::put;
use text::cut;

// Judges the lines of image bytes, which start at `from`.
fn judge_image(text: &[u8], from: usize, entries: usize) -> Result<Input, ParseError>
    ensures { parsed_of result
        ≡ judge (image_refusals 2 0 (lines (drop from text.now))) (counts entries (length (bytes_in_lines (lines (drop from text.now))))) }
{
    let mut at = from;
    let mut k: usize = 2;
    let mut bytes: usize = 0;
    // A line's bytes say where the next one starts, so there is no range to go through.
    while at < text.len() {
        let e = cut::end(text, at, cut::LINE_END);
        let n = bytes::judge(&text[at..e]).ok_or(ParseError::Malformed(k))?;
        bytes += n;
        if Input::MOST_BYTES < bytes {
            return Err(ParseError::Malformed(k));
        }
        k += 1;
        at = e + 1;
    }
    Ok(Input { entries, bytes })
}

// The refusal 13, or else what the text holds.
fn judge_text(text: &[u8]) -> Result<Input, ParseError>
    ensures { parsed_of result ≡ judge (input_refusals text.now) (counts_of text.now) }
{
    let e = cut::end(text, 0, cut::LINE_END);
    let n = entries::judge(&text[0..e]).ok_or(ParseError::Malformed(1))?;
    judge_image(text, e + 1, n)
}

// Writes the bytes of the lines that start at `from`.
fn write_image(text: &[u8], from: usize, image: &mut [u8])
    requires { length (bytes_in_lines (lines (drop from text.now))) ≤ length image.old }
    ensures { image.new ≡ sets image.old 0 (bytes_in_lines (lines (drop from text.now))) }
{
    let mut at = from;
    let mut n: usize = 0;
    // A line's bytes say where the next one starts, so there is no range to go through.
    while at < text.len() {
        let e = cut::end(text, at, cut::LINE_END);
        put(&text[at..e], image, n);
        n += (e - at) / 2;
        at = e + 1;
    }
}

fn write_text(text: &[u8], entries: &mut [u32], image: &mut [u8])
    requires { (length (entries_of text.now) ≤ length entries.old) × (length (image_of text.now) ≤ length image.old) }
    ensures entries_after { entries.new ≡ laid (entries_of text.now) entries.old }
    ensures image_after { image.new ≡ laid (image_of text.now) image.old }
{
    let e = cut::end(text, 0, cut::LINE_END);
    entries::write(&text[0..e], entries);
    write_image(text, e + 1, image);
}

// Reads the entries and the image bytes of an input: how many of each, or 13 with the first bad line, then 11 with how many are needed.
pub fn parse(text: &[u8], entries: &mut [u32], image: &mut [u8]) -> Result<Input, ParseError>
    ensures result_value { parsed_of result ≡ parse_answer text.now entries.old image.old }
    ensures entries_after { entries.new ≡ parse_entries text.now entries.old image.old }
    ensures image_after { image.new ≡ parse_image text.now entries.old image.old }
{
    let c = judge_text(text)?;
    if entries.len() < c.entries || image.len() < c.bytes {
        return Err(ParseError::NoRoom(c));
    }
    write_text(text, entries, image);
    Ok(c)
}
