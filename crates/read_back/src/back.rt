// The whole listing: read into local arrays first, then laid over the lent rooms, so that a refusal changes nothing.
ghost use Rattle.std.specs.Prelude.{◌≡◌, ◌≤◌, length, replicate};
ghost use Rattle.read_back.specs.Back.{restored_of, back_answer, back_image, back_marks};
ghost use Rattle.read_back.specs.LinesLeave.{LinesLeave};
ghost use Rattle.read_back.specs.declared.back.RestoreError.TheVariants.{Malformed};

use crate::noted;
use crate::place::Place;
use crate::read::ReadError;
use crate::turn::read_on;
use instruction::Mode;
use marks::SizeError;
use targets::Image;

#[derive(Clone, Copy, Debug, PartialEq, Eq)]
pub enum RestoreError {
    // 1 and 2: with the length of the image, or of the marks.
    Size(SizeError),
    // 11: with the bytes needed.
    NoRoom(usize),
    // 15: malformed or out of order, with the line's number.
    Malformed(usize),
    // 16: reaching past the length, with the line's number.
    PastEnd(usize),
}

impl From<ReadError> for RestoreError {
    ghost from_gives = { λ e r. r ≡ Malformed e.line };

    fn from(e: ReadError) -> RestoreError {
        RestoreError::Malformed(e.line)
    }
}

fn no_bytes() -> [u8; Image::LIMIT]
    ensures { result ≡ replicate 65536 0 }
{
    [0; Image::LIMIT]
}

// Reads every line over an empty image and an empty table, up to the first bad one: how many there are.
fn read_lines(
    mode: Mode,
    text: &[u8],
    image: &mut [u8],
    table: &mut [u64; noted::WORDS],
) -> Result<usize, RestoreError>
    requires { (image.old ≡ replicate (length image.old) 0) × (table.old ≡ replicate 1024 0xFFFFFFFFFFFFFFFF) × (length image.old ≤ 65536) }
    ensures { LinesLeave mode text.now (length image.old) image.new table.new (restored_of result) }
{
    let mut place = Place::start();
    let mut end: usize = 0;
    // A `while`, since each line says where the next begins.
    while place.at < text.len() {
        let (next, listed) = read_on(mode, text, place, image, table, end)?;
        place = next;
        end = listed;
    }
    Ok(place.line - 1)
}

// Puts the image of so many bytes and its marks back: how many lines were read.
pub fn read_back(
    mode: Mode,
    text: &[u8],
    length: usize,
    image: &mut [u8],
    marks: &mut [u8],
) -> Result<usize, RestoreError>
    ensures result_value { restored_of result ≡ back_answer mode text.now length image.old marks.old }
    ensures image_after { image.new ≡ back_image mode text.now length image.old marks.old }
    ensures marks_after { marks.new ≡ back_marks mode text.now length image.old marks.old }
{
    if Image::LIMIT < length {
        return Err(RestoreError::Size(SizeError::LongImage(length)));
    }
    if marks.len() < length {
        return Err(RestoreError::Size(SizeError::ShortMarks(marks.len())));
    }
    if image.len() < length {
        return Err(RestoreError::NoRoom(length));
    }
    let mut bytes = no_bytes();
    let mut table = noted::table();
    let lines = read_lines(mode, text, &mut bytes[..length], &mut table)?;
    image[..length].copy_from_slice(&bytes[..length]);
    noted::put_marks(&table, length, marks);
    Ok(lines)
}
