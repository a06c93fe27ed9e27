// Local rooms, each made by a function that says what it holds.
ghost use Rattle.std.specs.Prelude.{◌≡◌, replicate};

use crate::asked::Asked;
use targets::Image;

// As many entries, or pins, as the words may have.
pub fn numbers() -> [u32; Asked::MOST]
    ensures { result ≡ replicate 256 0 }
{
    [0; Asked::MOST]
}

// As many bytes as an image may have.
pub fn bytes() -> [u8; Image::LIMIT]
    ensures { result ≡ replicate 65536 0 }
{
    [0; Image::LIMIT]
}

// As many positions.
pub fn positions() -> [u32; Image::LIMIT]
    ensures { result ≡ replicate 65536 0 }
{
    [0; Image::LIMIT]
}
