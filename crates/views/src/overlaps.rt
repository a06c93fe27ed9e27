// Overlaps: traced positions that share a byte with the instruction at a traced position.
// Ported from `find_overlaps` of src/disasm.rs of wtetzner/waterbear, and changed: the positions go to lent room.
ghost use Rattle.std.specs.Prelude.{◌≡◌, cond, [], ◌∷◌, ◌++◌, ◌-◌, ◌≤◌, ◌<◌, length, drop};
ghost use Rattle.views.specs.View.{viewed_of};
ghost use Rattle.views.specs.Positions.{traced_at};
ghost use Rattle.views.specs.Overlaps.{overlaps_of, overlaps_in, position_in, from_before, overlaps_answer, overlaps_room};

use crate::view::ViewError;
use crate::{traced, view};
use targets::Image;

// At most three positions, in their order.
#[derive(Clone, Copy, Debug, PartialEq, Eq)]
pub enum Overlaps {
    Nothing,
    One(u32),
    Two(u32, u32),
    Three(u32, u32, u32),
}

impl Overlaps {
    pub fn count(self) -> usize
        ensures { result ≡ length (overlaps_in self) }
    {
        match self {
            Self::Nothing => 0,
            Self::One(_) => 1,
            Self::Two(_, _) => 2,
            Self::Three(_, _, _) => 3,
        }
    }
}

// These positions and, where there is one, one more.
fn with(o: Overlaps, next: Option<u32>) -> Overlaps
    requires { length (overlaps_in o) < 3 }
    ensures { overlaps_in result ≡ overlaps_in o ++ position_in next }
{
    let Some(q) = next else {
        return o;
    };
    match o {
        Overlaps::Nothing => Overlaps::One(q),
        Overlaps::One(a) => Overlaps::Two(a, q),
        Overlaps::Two(a, b) => Overlaps::Three(a, b, q),
        Overlaps::Three(_, _, _) => unreachable!(),
    }
}

// The position before p, where the instruction there has p for its second byte.
fn behind(image: &[u8], marks: &[u8], p: u32) -> Option<u32>
    ensures { result ≡ cond (from_before image.now marks.now p) (Some (p - 1)) None }
{
    let q = p.checked_sub(1)?;
    if traced::is_traced_at(image, marks, q as usize) && 2 <= targets::size_at(image, q) {
        return Some(q);
    }
    None
}

// This position, where it is traced.
fn traced_one(image: &[u8], marks: &[u8], q: u32) -> Option<u32>
    ensures { result ≡ cond (traced_at image.now marks.now q) (Some q) None }
{
    if traced::is_traced_at(image, marks, q as usize) {
        return Some(q);
    }
    None
}

// The traced positions that share a byte with the instruction at a traced p: that before p, and those up to its last byte. Nothing further back.
pub fn overlaps_at(image: &[u8], marks: &[u8], p: u32) -> Overlaps
    ensures { overlaps_in result ≡ overlaps_of image.now marks.now p }
{
    if Image::LIMIT < image.len() {
        return Overlaps::Nothing;
    }
    if !traced::is_traced_at(image, marks, p as usize) {
        return Overlaps::Nothing;
    }
    let size = targets::size_at(image, p);
    let back = with(Overlaps::Nothing, behind(image, marks, p));
    if size < 2 {
        return back;
    }
    let ahead = with(back, traced_one(image, marks, p + 1));
    if size < 3 {
        return ahead;
    }
    with(ahead, traced_one(image, marks, p + 2))
}

// Writes these positions at the beginning of the room.
fn put(o: Overlaps, room: &mut [u32])
    requires { length (overlaps_in o) ≤ length room.old }
    ensures { room.new ≡ overlaps_in o ++ drop (length (overlaps_in o)) room.old }
{
    match o {
        Overlaps::Nothing => {}
        Overlaps::One(a) => room[0] = a,
        Overlaps::Two(a, b) => room[..2].copy_from_slice(&[a, b]),
        Overlaps::Three(a, b, c) => room[..3].copy_from_slice(&[a, b, c]),
    }
}

// The overlaps at p, in their order.
pub fn find_overlaps(
    image: &[u8],
    marks: &[u8],
    p: u32,
    room: &mut [u32],
) -> Result<usize, ViewError>
    ensures result_value { viewed_of result ≡ overlaps_answer image.now marks.now p room.old }
    ensures room_after { room.new ≡ overlaps_room image.now marks.now p room.old }
{
    let o = overlaps_at(image, marks, p);
    let n = o.count();
    view::check_room(image, marks, room.len(), n)?;
    put(o, room);
    Ok(n)
}
