// Functions over what a caller hands over: a closure that reads digits, an iterator that gives bytes. That the closure can be called, and that
// the iterator can be gone through and ends, is asked of the caller, since no type says so.
ghost use Rattle.std.specs.Prelude.{◌≡◌, ℕ, ◌+◌, ◌-◌, ◌<◌, ◌≤◌, min, List, Option, length};
ghost use Rattle.std.proofs.lemmas.List.Edits.{sets};
ghost use Rattle.std.specs.Iterator.{DrainsIf, IsFinite};
ghost use Rattle.runner.specs.Digits.{number_from};

// A decimal number, whose digits are read by `digit`, and 0 for what is none; once it is above 10^12, nothing more is read.
pub fn number<F: Fn(u8) -> Option<u8>>(digits: &[u8], digit: F) -> usize
    requires { F.IsAlwaysCallable digit }
    ensures { (f : ℕ → Option ℕ) → ((b : ℕ) (d : Option ℕ) → b < 256 → F.post digit b d → d ≡ f b)
        → result ≡ number_from f 0 digits.now }
{
    let mut value: usize = 0;
    for b in digits {
        if 1_000_000_000_000 < value {
            return value;
        }
        value = value * 10 + usize::from(digit(*b).unwrap_or(0));
    }
    value
}

// Puts bytes at a place, as far as there is room: the next place.
pub fn put<I: Iterator<Item = u8>>(bytes: I, at: usize, room: &mut [u8]) -> usize
    requires { I.Iterator.can_next bytes × IsFinite (I.Iterator.remaining bytes) }
    ensures { (xs : List ℕ) × DrainsIf I.Iterator.next_gives (length xs ≤ length room.old - at) bytes xs
        × (room.new ≡ sets room.old at xs) × (result ≡ at + min (length xs) (length room.old - at)) }
{
    let mut next = at;
    for b in bytes {
        if room.len() <= next {
            return next;
        }
        room[next] = b;
        next += 1;
    }
    next
}
