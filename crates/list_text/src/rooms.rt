// Local rooms, each made by a function that says what it holds.
ghost use Rattle.std.specs.Prelude.{◌≡◌, replicate};

use crate::parsed::Input;

// As many entries as an input may have.
pub fn entries() -> [u32; Input::MOST_ENTRIES]
    ensures { result ≡ replicate 256 0 }
{
    [0; Input::MOST_ENTRIES]
}

// As many bytes as an input's image may have.
pub fn bytes() -> [u8; Input::MOST_BYTES]
    ensures { result ≡ replicate 16384 0 }
{
    [0; Input::MOST_BYTES]
}

// As many positions.
pub fn positions() -> [u32; Input::MOST_BYTES]
    ensures { result ≡ replicate 16384 0 }
{
    [0; Input::MOST_BYTES]
}
