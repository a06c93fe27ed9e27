// Bytes and target marks of a traced image, counted.
ghost use Rattle.std.specs.Prelude.{cond, ◌≡◌, ◌<◌, ◌≤◌, length, get_or};
ghost use Rattle.reach.specs.Mark.{traced_mark, count};
ghost use Rattle.targets.specs.At.{size_here};
ghost use Rattle.views.specs.View.{Sound};
ghost use Rattle.report_text.specs.Figures.{is_set, code_bytes, shared_bytes, target_marks};

use instruction::Mode;
use list_text::rooms;
use marks::Mark;

// Bytes that are code, and those under more than one traced instruction.
#[derive(Clone, Copy)]
pub struct Tally {
    pub code: usize,
    pub shared: usize,
}

// How many bytes the instruction at a traced position has; 0 at any other.
fn size_of(image: &[u8], marks: &[u8], p: usize) -> usize
    requires { (p < length image.now) × (length image.now ≤ length marks.now) × (length image.now ≤ 65536) }
    ensures { result ≡ cond (traced_mark (get_or marks.now p 0)) (size_here image.now p) 0 }
{
    if !Mark::is_traced(marks[p]) {
        return 0;
    }
    targets::size_at(image, p as u32) as usize
}

// One look at each position. An instruction has three bytes at most, so of those that begin before p only these matter: how many have p, and
// how many have the byte after it.
pub fn count_bytes(image: &[u8], marks: &[u8]) -> Tally
    requires { (length image.now ≤ length marks.now) × (length image.now ≤ 65536) }
    ensures code_value { result.code ≡ code_bytes image.now marks.now }
    ensures shared_value { result.shared ≡ shared_bytes image.now marks.now }
{
    let mut code: usize = 0;
    let mut shared: usize = 0;
    let mut here: usize = 0;
    let mut next: usize = 0;
    for p in 0..image.len() {
        let size = size_of(image, marks, p);
        let under = here + (0 < size) as usize;
        code += (0 < under) as usize;
        shared += (1 < under) as usize;
        here = next + (1 < size) as usize;
        next = (2 < size) as usize;
    }
    Tally { code, shared }
}

// How many bytes are not 0.
fn set_in(room: &[u8]) -> usize
    ensures { result ≡ count is_set room.now }
{
    let mut n: usize = 0;
    for b in room {
        n += (*b != 0) as usize;
    }
    n
}

// How many positions are target-marked.
pub fn target_marks(image: &[u8], marks: &[u8]) -> usize
    requires { (length image.now ≤ 16384) × Sound image.now marks.now }
    ensures { result ≡ target_marks image.now marks.now }
{
    let n = image.len();
    let mut room = rooms::bytes();
    // The marks are sound and the room is as long as the image, so nothing is refused.
    let _ = views::target_marks(Mode::Unwrapped, image, marks, &mut room[..n]);
    set_in(&room[..n])
}
