// Local rooms, each made by a function that says what it holds.
ghost use Rattle.std.specs.Prelude.{◌≡◌, replicate, take};

use targets::Image;

// As many bytes as an image may have.
pub fn bytes() -> [u8; Image::LIMIT]
    ensures { result ≡ replicate 65536 0 }
{
    [0; Image::LIMIT]
}

// The first n bytes, or all where there are fewer.
pub fn first(bytes: &[u8], n: usize) -> &[u8]
    ensures { result.now ≡ take n bytes.now }
{
    &bytes[..n.min(bytes.len())]
}
