// The bits of instructions set in lent words.
ghost use Rattle.std.specs.Prelude.{◌≡◌, false, cond, ◌+◌, ◌*◌, ◌≤◌, ◌<◌, length, get_or};
ghost use Rattle.reach.specs.Mark.{traced_mark};
ghost use Rattle.targets.specs.At.{size_here};
ghost use Rattle.views.specs.View.{damaged_here};
ghost use Rattle.map.specs.Packed.{covered};

use crate::bits;
use instruction::first;

// The bits of the positions from p on, so many, set: they reach into the next word at most.
pub fn cover(words: &mut [u64], p: u32, size: u32)
    requires { (0 < size) × (size ≤ 64) × (p + size ≤ 64 * length words.old) × (p + size ≤ 65536) }
    ensures { words.new ≡ covered words.old size p }
{
    let j = (p / 64) as usize;
    let from = p % 64;
    words[j] = bits::with_ones(words[j], from, size);
    if from + size <= 64 {
        return;
    }
    words[j + 1] = bits::with_ones(words[j + 1], 0, from + size - 64);
}

// Whether a mark that is not damaged says traced. Of 0 to 4 those that do have this bit, and no other has.
fn is_traced(mark: u8) -> bool
    requires { mark ≤ 4 }
    ensures { result ≡ traced_mark mark }
{
    mark / 2 % 2 == 1
}

// The bits of the instruction at p set, if it is traced.
pub fn cover_at(image: &[u8], marks: &[u8], words: &mut [u64], p: usize)
    requires { (p < length image.now) × (length image.now ≤ length marks.now) × (length image.now ≤ 65536)
        × (length image.now ≤ 64 * length words.old) × (damaged_here image.now marks.now p ≡ false) }
    ensures { words.new
        ≡ cond (traced_mark (get_or marks.now p 0)) (covered words.old (size_here image.now p) p) words.old }
{
    if !is_traced(marks[p]) {
        return;
    }
    cover(words, p as u32, first::size_by(image[p]));
}
