// Local rooms, each made by a function that says how long it is. Views are put into them where they stand, so that no copy is made.
ghost use Rattle.std.specs.Prelude.{◌≡◌, length};

use targets::Image;

// A byte for each position of every image.
pub fn bytes() -> [u8; Image::LIMIT]
    ensures { 65536 ≡ length result }
{
    [0; Image::LIMIT]
}

// Two cells for each.
pub fn cells() -> [u16; 131_072]
    ensures { 131072 ≡ length result }
{
    [0; 131_072]
}
