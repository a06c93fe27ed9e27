// Damaged marks.
ghost use Rattle.std.specs.Prelude.{◌≡◌, not, false, ℕ, ◌<◌, ◌≤◌, length};
ghost use Rattle.targets.specs.At.{fits_here};
ghost use Rattle.views.specs.Positions.{up_from, some};
ghost use Rattle.views.specs.View.{off_jmpf, misplaced, damaged_here, wrong, wrong_at};

use marks::Mark;

// Whether the end cuts the instruction at p off.
fn is_cut(image: &[u8], p: u32) -> bool
    requires { (p < length image.now) × (length image.now ≤ 65536) }
    ensures { result ≡ not (fits_here image.now p) }
{
    let n = image.len();
    let at = p as usize;
    // No instruction is longer than three bytes.
    n < at + 3 && n < at + targets::size_at(image, p) as usize
}

// Whether a 3 stands off a Jmpf, whose first byte is 21.
fn is_off_jmpf(image: &[u8], mark: u8, p: u32) -> bool
    requires { p < length image.now }
    ensures { result ≡ off_jmpf image.now mark p }
{
    mark == Mark::FLASH && image[p as usize] != 0x21
}

fn is_misplaced(image: &[u8], mark: u8, p: u32) -> bool
    requires { (p < length image.now) × (length image.now ≤ 65536) }
    ensures { result ≡ misplaced image.now mark p }
{
    is_off_jmpf(image, mark, p) || (Mark::is_traced(mark) && is_cut(image, p))
}

pub fn is_damaged(image: &[u8], marks: &[u8], p: u32) -> bool
    requires { (p < length image.now) × (length image.now ≤ length marks.now) × (length image.now ≤ 65536) }
    ensures { result ≡ damaged_here image.now marks.now p }
{
    let mark = marks[p as usize];
    Mark::HIGHEST < mark || is_misplaced(image, mark, p)
}

// Whether a mark is damaged by its value and the byte that it stands on. It has no branch, so that many are looked at together.
fn is_wrong(mark: u8, byte: u8) -> bool
    ensures { result ≡ wrong mark byte }
{
    (Mark::HIGHEST < mark) | ((mark == Mark::FLASH) & (byte != 0x21))
}

// Whether one of the first n marks is.
fn any_wrong(image: &[u8], marks: &[u8], n: usize) -> bool
    requires { (n ≤ length image.now) × (n ≤ length marks.now) }
    ensures { result ≡ some (wrong_at image.now marks.now) (up_from n 0) }
{
    let mut any = false;
    for p in 0..n {
        any |= is_wrong(marks[p], image[p]);
    }
    any
}

// How far no mark is damaged, at a quick look. The last two positions are left: only there can the end cut an instruction off.
pub fn sound_to(image: &[u8], marks: &[u8]) -> usize
    requires { (length image.now ≤ length marks.now) × (length image.now ≤ 65536) }
    ensures { (result ≤ length image.now) × ((p : ℕ) → p < result → damaged_here image.now marks.now p ≡ false) }
{
    let n = image.len();
    if n < 3 {
        return 0;
    }
    if any_wrong(image, marks, n - 2) {
        return 0;
    }
    n - 2
}
