// Rooms of fixed length, and what is put into them.
ghost use Rattle.std.specs.Prelude.{◌≡◌, ◌+◌, ◌-◌, min, length, replicate};
ghost use Rattle.std.proofs.lemmas.List.Edits.{sets};
ghost use Rattle.runner.specs.Digits.{in_pairs};

use crate::digits;

// A room that holds this item everywhere.
pub fn filled<T: Copy, const N: usize>(item: T) -> [T; N]
    ensures { result ≡ replicate N item }
{
    [item; N]
}

// Puts a part at a place, as far as there is room: the next place.
pub fn copy<T: Copy>(part: &[T], at: usize, room: &mut [T]) -> usize
    ensures room_after { room.new ≡ sets room.old at part.now }
    ensures next { result ≡ at + min (length part.now) (length room.old - at) }
{
    if room.len() <= at {
        return at;
    }
    let n = part.len().min(room.len() - at);
    room[at..at + n].copy_from_slice(&part[..n]);
    at + n
}

// Puts the bytes that are written in hex at a place, as far as there is room: the next place.
pub fn put_hex(digits: &[u8], at: usize, room: &mut [u8]) -> usize
    ensures room_after { room.new ≡ sets room.old at (in_pairs digits.now) }
    ensures next { result ≡ at + min (length (in_pairs digits.now)) (length room.old - at) }
{
    let mut next = at;
    for pair in digits.chunks(2) {
        if room.len() <= next {
            return next;
        }
        room[next] = digits::byte(pair);
        next += 1;
    }
    next
}
