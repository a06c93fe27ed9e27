// The exception: a Jmpf with no target.
// Ported from `build_instruction_graph` of src/disasm.rs of wtetzner/waterbear, and changed: it is judged on marks.
ghost use Rattle.std.specs.Prelude.{◌≡◌};
ghost use Rattle.marks.specs.Tracer.{exempt_here};

use crate::flash;
use crate::mark::Mark;

// Whether a Jmpf stands at p with B8 0D before it, where these marks say that p - 2 is traced.
pub fn is_exempt(image: &[u8], marks: &[u8], p: u32) -> bool
    ensures { result ≡ exempt_here image.now marks.now p }
{
    flash::is_flash(image, p) && Mark::is_traced(Mark::at(marks, p - 2))
}
