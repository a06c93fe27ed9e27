// What a log is replayed over.
ghost use Rattle.std.specs.Prelude.{◌≤◌, length};

use crate::entry::WORDS;
use instruction::Mode;

// A traced image with its marks, in a mode, and the entries as a table of bits.
#[derive(Clone, Copy)]
pub struct Ground<'a> {
    pub mode: Mode,
    pub image: &'a [u8],
    pub marks: &'a [u8],
    pub table: &'a [u64; WORDS],
    ghost small: { length image.now ≤ 65536 },
}
