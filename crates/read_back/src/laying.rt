// A line over what the lines before it gave: the image's bytes, 0 where nothing is listed, and where what is listed ends. Positions may not
// fall, so that from a line's position on the bytes before that end were listed, and no others.
ghost use Rattle.std.specs.Prelude.{◌≡◌, ◌≤◌, length};
ghost use Rattle.text.specs.Bytes.{bytes_of};
ghost use Rattle.read_back.specs.Line.{record_of};
ghost use Rattle.read_back.specs.Offsets.{Spaced};
ghost use Rattle.read_back.specs.Sheet.{listed_on};
ghost use Rattle.read_back.specs.Turn.{agree_to, far_of};

use crate::line;
use crate::place::Record;
use text::hex;

// The digits of the bytes that a line lists, two for each byte that it counts; none in `L`, `O` and `A`.
pub fn listed(line: &[u8], r: Record) -> &[u8]
    requires { Spaced line.now × (r ≡ record_of line.now) }
    ensures { bytes_of result.now ≡ listed_on line.now }
{
    if !line::has_bytes(r.letter) {
        return &line[0..0];
    }
    let n = r.count;
    if n == 0 {
        return &line[0..0];
    }
    &line[line::DIGITS..line::DIGITS + n * 2]
}

// Whether the bytes of these digits, from p on, contradict nothing listed before.
pub fn agree(digits: &[u8], image: &[u8], p: usize, end: usize) -> bool
    requires { end ≤ length image.now }
    ensures { result ≡ agree_to end image.now p (bytes_of digits.now) }
{
    let (pairs, _) = digits.as_chunks::<2>();
    let known = &image[p.min(end)..end];
    for (pair, byte) in pairs.iter().zip(known) {
        if *byte != hex::pair(pair[0], pair[1]) {
            return false;
        }
    }
    true
}

// Where the bytes of these digits, from p on, end; 0 where there are none, as the definition `far_of` has it.
pub fn far(digits: &[u8], p: u32) -> usize
    ensures { result ≡ far_of p (bytes_of digits.now) }
{
    let k = digits.len() / 2;
    if k == 0 {
        return 0;
    }
    p as usize + k
}
