// Arrivals: the traced positions from which control comes to a position.
// Ported from the `jump_from` sets of `build_instruction_graph` of src/disasm.rs of wtetzner/waterbear, and changed: they are worked out from
// the marks, and the positions go to lent room.
ghost use Rattle.std.specs.Prelude.{◌≡◌, ◌≤◌, ◌<◌, eqb, length};
ghost use Rattle.targets.specs.Ways.{places_in};
ghost use Rattle.views.specs.Positions.{some};
ghost use Rattle.views.specs.View.{viewed_of};
ghost use Rattle.arrivals.specs.Arrivals.{arrives, arrivals_of, arrivals_answer, arrivals_room};
ghost use Rattle.instruction.specs.Answer.{laid};

use crate::{held, search};
use instruction::Mode;
use targets::Places;
use views::ViewError;

// Whether p is one of these positions.
fn has(ps: Places, p: u32) -> bool
    ensures { result ≡ some (eqb p) (places_in ps) }
{
    match ps {
        Places::Nothing => false,
        Places::First(a) => p == a,
        Places::Both(a, b) => p == a || p == b,
    }
}

// Whether control came from q to p.
pub fn arrives(mode: Mode, image: &[u8], marks: &[u8], p: u32, q: u32) -> bool
    ensures { result ≡ arrives mode image.now marks.now p q }
{
    if image.len() <= p as usize {
        return false;
    }
    has(held::held_at(mode, image, marks, q), p)
}

// How many there are. Where there is room for all they are written; the step from one to the next is told by what is found.
fn put_arrivals(mode: Mode, image: &[u8], marks: &[u8], p: u32, room: &mut [u32]) -> usize
    requires { (length image.now ≤ 65536) × (length image.now ≤ length marks.now) × (p < length image.now) }
    ensures value { result ≡ length (arrivals_of mode image.now marks.now p) }
    ensures room_after { length (arrivals_of mode image.now marks.now p) ≤ length room.old
        → room.new ≡ laid (arrivals_of mode image.now marks.now p) room.old }
{
    let mut count = 0;
    let mut from = 0;
    while let Some(q) = search::next_arrival(mode, image, marks, p, from) {
        if count < room.len() {
            room[count] = q;
        }
        count += 1;
        from = q + 1;
    }
    count
}

// How much room is asked for. There are no more arrivals than positions, so a room with an entry for each is enough, and they are not
// counted first; for a shorter one, as many entries as there are arrivals.
fn needed(mode: Mode, image: &[u8], marks: &[u8], p: u32, room: usize) -> usize
    requires { (length image.now ≤ 65536) × (length image.now ≤ length marks.now) × (p < length image.now) }
    ensures lower_bound { length (arrivals_of mode image.now marks.now p) ≤ result }
    ensures value { room < result → result ≡ length (arrivals_of mode image.now marks.now p) }
{
    if image.len() <= room {
        return image.len();
    }
    put_arrivals(mode, image, marks, p, &mut [])
}

// The traced positions that have p among the targets they had when they were taken up, upward.
pub fn arrivals(
    mode: Mode,
    image: &[u8],
    marks: &[u8],
    p: u32,
    room: &mut [u32],
) -> Result<usize, ViewError>
    ensures result_value { viewed_of result ≡ arrivals_answer mode image.now marks.now p room.old }
    ensures room_after { room.new ≡ arrivals_room mode image.now marks.now p room.old }
{
    views::check(image, marks)?;
    if image.len() <= p as usize {
        return Ok(0);
    }
    let n = needed(mode, image, marks, p, room.len());
    if room.len() < n {
        return Err(ViewError::NoRoom(n));
    }
    Ok(put_arrivals(mode, image, marks, p, room))
}
