// The bytes that the flash exception goes by.
// Ported from `build_instruction_graph` of src/disasm.rs of wtetzner/waterbear, and changed: bytes in place of the instruction before.
ghost use Rattle.std.specs.Prelude.{◌≡◌};
ghost use Rattle.targets.specs.At.{flash_here};

// Whether a Jmpf stands at p with the bytes B8 0D before it, which are Not1 of 0x10D, 0.
pub fn is_flash(image: &[u8], p: u32) -> bool
    ensures { result ≡ flash_here image.now p }
{
    let at = p as usize;
    if at < 2 {
        return false;
    }
    if image.len() <= at {
        return false;
    }
    if image[at] != 0x21 {
        return false;
    }
    if image[at - 2] != 0xB8 {
        return false;
    }
    image[at - 1] == 0x0D
}
