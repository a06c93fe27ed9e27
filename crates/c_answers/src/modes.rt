// The mode, as the exported calls take it.
ghost use Rattle.std.specs.Prelude.{◌≡◌};
ghost use Rattle.c_answers.specs.Modes.{mode_of};

use instruction::Mode;

// 0 is unwrapped, any other number wrapping.
pub fn mode(number: u32) -> Mode
    ensures { result ≡ mode_of number }
{
    match number {
        0 => Mode::Unwrapped,
        _ => Mode::Wrapping,
    }
}
