// Target marks: the positions that traced jumps, branches and calls name.
// Ported from `compute_labels` of src/disasm.rs of wtetzner/waterbear, and changed: 1 at each named position, in lent room.
ghost use Rattle.std.specs.Prelude.{◌≡◌, true, ◌++◌, ◌≤◌, ◌<◌, length, get_or, drop};
ghost use Rattle.reach.specs.Mark.{traced_mark};
ghost use Rattle.views.specs.View.{viewed_of};
ghost use Rattle.views.specs.Labels.{labels_of, named_from, label_at, labels_answer, labels_room};

use crate::view;
use crate::view::ViewError;
use instruction::Mode;
use marks::Mark;

// 1 at what the traced position p names, where that is inside. The exception is asked last: few positions name one inside, and what it knows
// of the first byte would turn the lookup by that byte into jumps.
fn label_traced(mode: Mode, image: &[u8], marks: &[u8], room: &mut [u8], p: usize)
    requires p_in_bounds { (p < length image.now) × (length image.now ≤ 65536) }
    requires image_in_bounds { (length image.now ≤ length room.old) × (traced_mark (get_or marks.now p 0) ≡ true) }
    ensures { room.new
        ≡ label_at (length image.now) (named_from mode image.now marks.now p) room.old }
{
    let at = targets::name_at(mode, image, p as u32) as usize;
    if image.len() <= at {
        return;
    }
    if marks::is_exempt(image, marks, p as u32) {
        return;
    }
    room[at] = 1;
}

// The same of any position. This stands apart, so that nothing is handed over for the positions that are not traced.
fn label_from(mode: Mode, image: &[u8], marks: &[u8], room: &mut [u8], p: usize)
    requires p_in_bounds { (p < length image.now) × (length image.now ≤ 65536) }
    requires image_in_bounds { (length image.now ≤ length marks.now) × (length image.now ≤ length room.old) }
    ensures { room.new
        ≡ label_at (length image.now) (named_from mode image.now marks.now p) room.old }
{
    if !Mark::is_traced(marks[p]) {
        return;
    }
    label_traced(mode, image, marks, room, p);
}

fn write_labels(mode: Mode, image: &[u8], marks: &[u8], room: &mut [u8])
    requires { (length image.now ≤ length marks.now) × (length image.now ≤ 65536) × (length image.now ≤ length room.old) }
    ensures { room.new ≡ labels_of mode image.now marks.now ++ drop (length image.now) room.old }
{
    let n = image.len();
    marks::clear(room, n);
    for p in 0..n {
        label_from(mode, image, marks, room, p);
    }
}

// 1 at each position inside the image that a traced jump, branch or call names, else 0.
pub fn target_marks(
    mode: Mode,
    image: &[u8],
    marks: &[u8],
    room: &mut [u8],
) -> Result<usize, ViewError>
    ensures result_value { viewed_of result ≡ labels_answer mode image.now marks.now room.old }
    ensures room_after { room.new ≡ labels_room mode image.now marks.now room.old }
{
    let n = image.len();
    view::check_room(image, marks, room.len(), n)?;
    write_labels(mode, image, marks, room);
    Ok(n)
}
