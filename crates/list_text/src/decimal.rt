// Numbers in decimal.
ghost use Rattle.std.specs.Prelude.{◌≡◌, ◌+◌, ◌/◌, ◌≤◌, set};
ghost use Rattle.std.proofs.lemmas.List.Edits.{sets};
ghost use Rattle.list_text.specs.Decimal.{lowest, width};

// How many digits a number has.
pub fn width(n: usize) -> usize
    ensures { (result ≡ width n n) × (result ≤ 1 + n / 10) }
{
    let mut left = n;
    let mut k: usize = 1;
    // The number says when its digits end.
    while 10 <= left {
        left /= 10;
        k += 1;
    }
    k
}

// Writes a byte this far from a place, if that is inside the room.
fn put_at(room: &mut [u8], at: usize, i: usize, b: u8)
    ensures { room.new ≡ set room.old (at + i) b }
{
    if room.len() <= at {
        return;
    }
    if room.len() - at <= i {
        return;
    }
    room[at + i] = b;
}

// Writes the k lowest digits of a number at a place; what falls past the end of the room is not written.
pub fn put(n: usize, k: usize, room: &mut [u8], at: usize)
    ensures { room.new ≡ sets room.old at (lowest k n) }
{
    let mut left = n;
    for i in (0..k).rev() {
        put_at(room, at, i, b'0' + (left % 10) as u8);
        left /= 10;
    }
}
