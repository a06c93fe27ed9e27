// A line of image bytes.
ghost use Rattle.std.specs.Prelude.{◌≡◌};
ghost use Rattle.list_text.specs.Bytes.{bytes_line};

use crate::parsed::Input;
use text::bytes;

// Of how many image bytes a line is, if it is one of image bytes.
pub fn judge(line: &[u8]) -> Option<usize>
    ensures { result ≡ bytes_line line.now }
{
    if !bytes::is_bytes(line, Input::MOST_IN_LINE) {
        return None;
    }
    Some(line.len() / 2)
}
