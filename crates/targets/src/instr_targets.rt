// Targets asked for alone, by a position and an instruction.
// Ported from `targets` of src/disasm.rs of wtetzner/waterbear, and changed: an instruction that would end past memory, or has a field
// out of range, is refused.
ghost use Rattle.std.specs.Prelude.{◌≡◌};
ghost use Rattle.targets.specs.Targets.{targets_of, targets_answer};

use crate::address::Next;
use crate::target::{Targets, TargetsError};
use instruction::{Instr, Mode};

// The targets of an instruction at a position, in document 01's order.
pub fn targets(mode: Mode, position: u32, instr: Instr) -> Result<Targets, TargetsError>
    ensures { targets_of result ≡ targets_answer mode position instr }
{
    let next = position as u64 + instr.size() as u64;
    if (Instr::HIGHEST_BASE as u64) < next {
        return Err(TargetsError::PastEnd(next));
    }
    instr.fit()?;
    let from = Next {
        mode,
        at: next as u32,
    };
    Ok(from.ways(instr))
}
