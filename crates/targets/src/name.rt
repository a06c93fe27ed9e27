// The position that an instruction names: the target of a jump, a branch or a call.
// Ported from `compute_labels` of src/disasm.rs of wtetzner/waterbear, and changed: the name is a position.
ghost use Rattle.std.specs.Prelude.{◌≡◌, ◌+◌, ◌<◌, ◌≤◌, true, length};
ghost use Rattle.instruction.specs.Flow.{flow_of};
ghost use Rattle.targets.specs.At.{form_here, size_here, fits_here, name_here};
ghost use Rattle.targets.specs.Ways.{is_naming, name_of};

use crate::image::Image;
use crate::{opening, operand};
use instruction::{Flow, Mode};

// Whether an instruction from which control goes so names an address.
pub fn is_naming(flow: Flow) -> bool
    ensures { result ≡ is_naming flow }
{
    matches!(flow, Flow::Jump | Flow::Branch)
}

// By where the instruction at p ends and where control goes. What its first byte says is handed on by its fields, here and where places
// are asked for, since to move the opening whole costs a run half as much again at each position.
fn name_by(mode: Mode, image: &[u8], p: u32, next: u32, flow: Flow) -> u32
    requires p_in_bounds { (p < length image.now) × (length image.now ≤ 65536) }
    requires p_value { (fits_here image.now p ≡ true) × (next ≡ p + size_here image.now p) × (flow ≡ flow_of (form_here image.now p)) }
    ensures { result ≡ name_here mode image.now p }
{
    if is_naming(flow) {
        return operand::place_at(mode, image, p, next);
    }
    Image::NOWHERE
}

// The position that the instruction at p names, or a position outside every image, which is the number that `name_of` answers there.
pub fn name_at(mode: Mode, image: &[u8], p: u32) -> u32
    ensures { result ≡ name_of mode image.now p }
{
    match opening::opening_at(image, p) {
        Ok(o) => name_by(mode, image, p, o.next, o.flow),
        Err(_) => Image::NOWHERE,
    }
}
