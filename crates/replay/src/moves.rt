// From one line of a log to the next.
ghost use Rattle.std.specs.Prelude.{◌≡◌, ◌<◌, length};
ghost use Rattle.map.specs.Words.{code_at};
ghost use Rattle.arrivals.specs.Arrivals.{arrives};
ghost use Rattle.replay.specs.Moves.{free_after, move_by};

use crate::entry;
use crate::ground::Ground;
use instruction::Mode;
use marks::Mark;

// How control may come from one line to the next.
#[derive(Clone, Copy, Debug, PartialEq, Eq)]
pub enum Move {
    // To a target that the first position had.
    Target,
    // To an entry.
    Interrupt,
    // After Ret, Reti, or a Jmpf that was not followed.
    Free,
}

// Whether any traced position may come after q.
fn is_free_after(image: &[u8], marks: &[u8], q: u32) -> bool
    ensures { result ≡ free_after image.now marks.now q }
{
    let at = q as usize;
    if !views::is_traced_at(image, marks, at) {
        return false;
    }
    let first = image[at];
    if first == 0xA0 {
        return true;
    }
    if first == 0xB0 {
        return true;
    }
    if first != 0x21 {
        return false;
    }
    marks[at] == Mark::FLASH
}

// Whether p is a target that q had when it was taken up. Most lines follow the one before at its end, which is seen without its operands.
fn is_target(mode: Mode, image: &[u8], marks: &[u8], q: u32, p: u32) -> bool
    requires { p < length image.now }
    ensures { result ≡ arrives mode image.now marks.now p q }
{
    let at = q as usize;
    if !views::is_traced_at(image, marks, at) {
        return false;
    }
    if marks[at] == Mark::FLASH {
        return false;
    }
    if targets::falls_to(mode, image, q, p) {
        return true;
    }
    arrivals::arrives(mode, image, marks, p, q)
}

// How control comes from q to p, if it may.
pub fn move_to(ground: Ground<'_>, q: u32, p: u32) -> Option<Move>
    requires { (p < 65536) × (p < length ground.image.now) }
    ensures { result ≡ move_by ground.entry.mode ground.entry.image.now ground.entry.marks.now (code_at ground.entry.table.now) q p }
{
    let Ground {
        mode,
        image,
        marks,
        table,
    } = ground;
    if is_target(mode, image, marks, q, p) {
        return Some(Move::Target);
    }
    if entry::is_entry(table, p) {
        return Some(Move::Interrupt);
    }
    if is_free_after(image, marks, q) {
        return Some(Move::Free);
    }
    None
}
