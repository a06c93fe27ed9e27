// The position that a jump, branch or call names, read from its bytes. No instruction is made of them: the first byte tells where the
// address stands.
// Ported from `targets`, `rel8` and `rel16` of src/disasm.rs of wtetzner/waterbear, and changed: by the first byte, and a position.
ghost use Rattle.std.specs.Prelude.{◌≡◌, ◌+◌, ◌-◌, ◌*◌, ◌/◌, ◌%◌, ◌<◌, ◌≤◌, true, length, pos, ◌+ℤ◌};
ghost use Rattle.instruction.specs.Code.{short_of};
ghost use Rattle.instruction.specs.Flow.{flow_of};
ghost use Rattle.targets.specs.At.{form_here, size_here, fits_here, instr_here, place_of};
ghost use Rattle.targets.specs.Targets.{in_mode, address_in};
ghost use Rattle.targets.specs.Ways.{is_naming};

use crate::image::Image;
use instruction::Mode;

// Twelve bits on next's page.
pub fn on_page(next: u32, field: u32) -> u32
    requires { field ≤ 4095 }
    ensures { (result ≡ next / 4096 % 16 * 4096 + field) × (result ≤ 65535) }
{
    next / 4096 % 16 * 4096 + field
}

// The byte before next plus an offset, wrapped at sixteen bits.
pub fn behind(next: u32, offset: u32) -> u32
    requires { (1 ≤ next) × (next ≤ 65536) × (offset ≤ 65535) }
    ensures { (result ≡ (next - 1 + offset) % 65536) × (result ≤ 65535) }
{
    u32::from(((next - 1) as u16).wrapping_add(offset as u16))
}

// The twelve bits of a first byte and the byte after it.
fn twelve(first: u8, low: u8) -> u32
    ensures { (result ≡ (first / 16 % 2 * 8 + first % 8) * 256 + low) × (result ≤ 4095) }
{
    (first / 16 % 2 * 8 + first % 8) as u32 * 256 + low as u32
}

fn pair(high: u8, low: u8) -> u32
    ensures { (result ≡ high * 256 + low) × (result ≤ 65535) }
{
    high as u32 * 256 + low as u32
}

// Next plus a byte's offset, -128 to 127. The sum is taken with 128 more, so that it is not below 0. It stays beside `Next::short`, since
// a run reads most of its targets here, and no signed number is made on the way.
fn short(mode: Mode, next: u32, offset: u8) -> u32
    requires { next ≤ 65536 }
    ensures { result ≡ place_of (in_mode mode (pos next +ℤ short_of offset)) }
{
    let more = next + (offset as u32 + 128) % 256;
    match mode {
        Mode::Unwrapped => {
            if more < 128 {
                return Image::NOWHERE;
            }
            more - 128
        }
        Mode::Wrapping => (more + 65_408) % 65_536,
    }
}

// The position that the jump, branch or call at p names: of Call and Jmp the address stands in the first two bytes, of Callf, Jmpf,
// Callr and Brf in the two behind the first, of all others in the last.
pub fn place_at(mode: Mode, image: &[u8], p: u32, next: u32) -> u32
    requires p_in_bounds { (p < length image.now) × (length image.now ≤ 65536) }
    requires p_value { (fits_here image.now p ≡ true) × (next ≡ p + size_here image.now p) × (is_naming (flow_of (form_here image.now p)) ≡ true) }
    ensures { result ≡ place_of (address_in mode (p + size_here image.now p) (instr_here image.now p)) }
{
    let at = p as usize;
    let first = image[at];
    if first < 0x40 {
        if 8 <= first % 16 {
            return on_page(next, twelve(first, image[at + 1]));
        }
        if first / 2 == 0x10 {
            return pair(image[at + 1], image[at + 2]);
        }
        if first / 2 == 0x08 {
            return behind(next, pair(image[at + 2], image[at + 1]));
        }
    }
    short(mode, next, image[next as usize - 1])
}
