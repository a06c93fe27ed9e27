// Local rooms, each made by a function that says how long it is, so that no slip in a number is compiled.
ghost use Rattle.std.specs.Prelude.{◌≡◌, length};

use report_text::Term;

// More than the list has, and more than any of its cases is given.
const GIVEN: usize = 120_000;

// More than any output.
const OUTPUT: usize = 210_000;

pub fn given() -> [u8; GIVEN]
    ensures { 120000 ≡ length result }
{
    runner::filled(0)
}

pub fn output() -> [u8; OUTPUT]
    ensures { 210000 ≡ length result }
{
    runner::filled(0)
}

// As much as is held of an image's text.
pub fn held() -> [u8; Term::MOST]
    ensures { 51200 ≡ length result }
{
    runner::filled(0)
}

// As long as what one call prints can be.
pub fn printed() -> [u8; Term::MOST_PRINTED]
    ensures { 512 ≡ length result }
{
    runner::filled(0)
}
