// Where control goes from a position of an image.
ghost use Rattle.std.specs.Prelude.{◌≡◌, ◌+◌, ◌<◌, ◌≤◌, true, length, pos};
ghost use Rattle.instruction.specs.Flow.{flow_of};
ghost use Rattle.targets.specs.At.{form_here, size_here, fits_here, place_of, ways_here};
ghost use Rattle.targets.specs.Targets.{in_mode};
ghost use Rattle.targets.specs.Ways.{places_in, ways_of, goes_on, falls_to};

use crate::image::Image;
use crate::not_whole::NotWhole;
use crate::{name, opening, operand};
use instruction::{Flow, Mode};

// At most two positions, in their order.
#[derive(Clone, Copy)]
pub enum Places {
    Nothing,
    First(u32),
    Both(u32, u32),
}

// The position that a target names; one below 0 lies outside every image, and `place_of` answers a number for it.
pub fn place(t: i32) -> u32
    ensures { result ≡ place_of t }
{
    if t < 0 { Image::NOWHERE } else { t as u32 }
}

// Where an instruction ends, as a target: in wrapping mode the end of memory is its beginning.
pub fn next_place(mode: Mode, next: u32) -> u32
    ensures { (pos result ≡ in_mode mode (pos next)) × (result ≤ next) }
{
    match mode {
        Mode::Unwrapped => next,
        Mode::Wrapping => next % 65_536,
    }
}

// Whether control goes on behind an instruction.
fn goes_on(flow: Flow) -> bool
    ensures { result ≡ goes_on flow }
{
    matches!(flow, Flow::Next | Flow::Branch)
}

// The positions that the targets of the instruction at p name, by what its first byte says.
fn places_by(mode: Mode, image: &[u8], p: u32, next: u32, flow: Flow) -> Places
    requires p_in_bounds { (p < length image.now) × (length image.now ≤ 65536) }
    requires p_value { (fits_here image.now p ≡ true) × (next ≡ p + size_here image.now p) × (flow ≡ flow_of (form_here image.now p)) }
    ensures { places_in result ≡ ways_here mode image.now p }
{
    if name::is_naming(flow) {
        let to = operand::place_at(mode, image, p, next);
        if goes_on(flow) {
            return Places::Both(to, next_place(mode, next));
        }
        return Places::First(to);
    }
    if goes_on(flow) {
        return Places::First(next_place(mode, next));
    }
    Places::Nothing
}

// The positions that the targets at p name. No `?` stands here, and what is opened is handed on by its fields, since to move it whole costs
// a run half as much again at each position.
pub fn ways_at(mode: Mode, image: &[u8], p: u32) -> Result<Places, NotWhole>
    ensures { result ≡ ways_of mode image.now p }
{
    match opening::opening_at(image, p) {
        Ok(o) => Ok(places_by(mode, image, p, o.next, o.flow)),
        Err(e) => Err(e),
    }
}

// Whether p stands right behind the instruction at q and control goes on to it. No operand is looked at.
pub fn falls_to(mode: Mode, image: &[u8], q: u32, p: u32) -> bool
    ensures { result ≡ falls_to mode image.now q p }
{
    match opening::opening_at(image, q) {
        Ok(o) => goes_on(o.flow) && p == next_place(mode, o.next),
        Err(_) => false,
    }
}
