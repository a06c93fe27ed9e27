// A call that writes its output into a lent room.
ghost use Rattle.std.specs.Prelude.{◌≡◌, ℕ, ◌+◌, ◌-◌, ◌%◌, ◌<◌, ◌≤◌, ◌⊎◌, ◌↔◌, ⊤, IsTrue, IsFalse, All, List, length, drop, replicate, Result, Ok, Err};
ghost use Rattle.runner.specs.declared.call.CallError.{CallError};
ghost use Rattle.runner.specs.declared.call.CallError.TheVariants.{NoRoom};

// What stands in a room before a call.
pub const OLD: u8 = b'~';

// Why a call writes nothing.
#[derive(Clone, Copy, Debug, PartialEq, Eq)]
pub enum CallError {
    // The room is too short, and so much is needed.
    NoRoom(usize),
    // What no case expects.
    Other,
}

pub trait Call {
    // Holds of the call, a room, what the call answers, and the room after it. Where an `impl` says nothing, each answer may come.
    ghost writes: { Self → List ℕ → Result ℕ CallError → List ℕ → Type 0 } = { λ _ _ _ _. ⊤ };

    // How much was written at the room's start.
    fn write(&self, room: &mut [u8]) -> Result<usize, CallError>
        ensures { writes self.now room.old result room.new };
}

// Whether nothing was written into a room.
pub fn is_old(room: &[u8]) -> bool
    ensures { IsTrue result ↔ All (λ b. b ≡ 126) room.now }
{
    room.iter().all(|b| *b == OLD)
}

// Whether a room that is one byte too short is refused with all that is needed, and stays as it is.
pub fn is_refused<C: Call>(call: &C, need: usize, room: &mut [u8]) -> bool
    ensures short { (length room.old < need) ⊎ (need ≡ 0) → IsFalse result }
    ensures called { need ≤ length room.old → 0 < need → (answer : Result ℕ CallError) × (after : List ℕ)
        × C.writes call.now (replicate (need - 1) 126) answer after
        × (IsTrue result ↔ (answer ≡ Err (NoRoom need)) × All (λ b. b ≡ 126) after) }
{
    let Some(needed) = room.get_mut(..need) else {
        return false;
    };
    let Some((_, short)) = needed.split_last_mut() else {
        return false;
    };
    short.fill(OLD);
    call.write(short) == Err(CallError::NoRoom(need)) && is_old(short)
}

// Whether the output is written, into a room of its length or with one or two bytes to spare, which stay.
pub fn is_written<C: Call>(call: &C, need: usize, room: &mut [u8]) -> bool
    ensures short { length room.old < need + need % 3 → IsFalse result }
    ensures called { need + need % 3 ≤ length room.old → (answer : Result ℕ CallError) × (after : List ℕ)
        × C.writes call.now (replicate (need + need % 3) 126) answer after
        × (IsTrue result ↔ (answer ≡ Ok need) × All (λ b. b ≡ 126) (drop need after)) }
{
    let Some(lent) = room.get_mut(..need.saturating_add(need % 3)) else {
        return false;
    };
    lent.fill(OLD);
    call.write(lent) == Ok(need) && is_old(&lent[need..])
}
