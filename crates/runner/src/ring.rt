// A room that tells of what stands around the end of memory: its last five bytes, and then its first five.
ghost use Rattle.std.specs.Prelude.{◌≡◌, ◌≤◌, ◌-◌, ◌++◌, ◌↔◌, IsTrue, length, take, drop, slice_range};

// Whether these are ten bytes, and a room has an end for either five of them.
fn is_ring(ten: &[u8], room: &[u8]) -> bool
    ensures { IsTrue result ↔ (length ten.now ≡ 10) × (10 ≤ length room.now) }
{
    ten.len() == 10 && 10 <= room.len()
}

// Lays ten bytes at the ends of a room. A room of fewer than ten bytes stays as it is, and so does any where there are not ten to lay.
pub fn lay(ten: &[u8], room: &mut [u8])
    ensures laid { (length ten.now ≡ 10) × (10 ≤ length room.old)
        → room.new ≡ drop 5 ten.now ++ (slice_range room.old 5 (length room.old - 5) ++ take 5 ten.now) }
    ensures kept { ¬ ((length ten.now ≡ 10) × (10 ≤ length room.old)) → room.new ≡ room.old }
{
    if !is_ring(ten, room) {
        return;
    }
    let seam = room.len() - 5;
    room[..5].copy_from_slice(&ten[5..]);
    room[seam..].copy_from_slice(&ten[..5]);
}

// Whether these ten bytes stand at the ends of a room.
pub fn has_ends(room: &[u8], ten: &[u8]) -> bool
    ensures { IsTrue result ↔ ((length ten.now ≡ 10) × (10 ≤ length room.now))
        × (drop (length room.now - 5) room.now ++ take 5 room.now ≡ ten.now) }
{
    if !is_ring(ten, room) {
        return false;
    }
    let (last, first) = ten.split_at(5);
    room.ends_with(last) && room.starts_with(first)
}

// What stands between the ends of a room; nothing where it has fewer than ten bytes.
pub fn between(room: &[u8]) -> &[u8]
    ensures { result.now ≡ slice_range room.now 5 (length room.now - 5) }
{
    room.get(5..room.len().saturating_sub(5)).unwrap_or(&[])
}
