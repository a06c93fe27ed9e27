// The position that one operand names, asked for alone: no instruction is made to ask for it.
ghost use Rattle.std.specs.Prelude.{◌≡◌};
ghost use Rattle.targets.specs.Asked.{operand_place};

use crate::address::Next;
use crate::image::Image;
use crate::place;
use instruction::{Instr, Kind, Mode};

// Of an operand of an instruction that ends at next. A position outside every image where no instruction ends there, or where the number
// does not fit its field: the number that the definition `operand_place` answers there.
pub fn operand_place(mode: Mode, next: u64, kind: Kind, z: i32) -> u32
    ensures { result ≡ operand_place mode next kind z }
{
    if next == 0 || (Instr::HIGHEST_BASE as u64) < next || kind.is_unfit(z) {
        return Image::NOWHERE;
    }
    let from = Next {
        mode,
        at: next as u32,
    };
    place::place(from.address_of(kind, z))
}
