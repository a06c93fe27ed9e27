// What a first byte alone says of its instruction: how long it is, and where control goes from it. The byte's column in document 01's
// table gives a word, and its row four bits of the word: the size in the lower two, and in the upper two where control goes (0 it stops,
// 1 goes on, 2 jumps, 3 branches). A const array would be copied at each read, which costs more than all the rest; a match on numbers
// is not.
ghost use Rattle.std.specs.Prelude.{◌≡◌, ◌<◌};
ghost use Rattle.instruction.specs.Forms.{form_at, form_of, size_of};
ghost use Rattle.instruction.specs.First.{first_says};
ghost use Rattle.instruction.specs.FirstBits.{column_word, said_by, flow_at};

use crate::flow::Flow;

// The word of the column of a byte's low four bits. All sixteen are written out, so that the compiler makes a load of it.
fn word(low: u8) -> u64
    requires { low < 16 }
    ensures { result ≡ column_word said_by low }
{
    match low {
        0 => 0x5555_11EE_6655_5FF5,
        1 => 0x6665_6666_665F_FBBA,
        2 => 0x6666_6666_66FF_F766,
        3 => 0x6666_6666_66FF_F766,
        4 => 0x5555_5555_55EF_F655,
        5 => 0x5555_5555_55EF_F655,
        6 => 0x5555_5555_55EF_F655,
        7 => 0x5555_5555_55EF_F655,
        8 => 0x6666_66FF_FFFF_AAEE,
        9 => 0x6666_66FF_FFFF_AAEE,
        10 => 0x6666_66FF_FFFF_AAEE,
        11 => 0x6666_66FF_FFFF_AAEE,
        12 => 0x6666_66FF_FFFF_AAEE,
        13 => 0x6666_66FF_FFFF_AAEE,
        14 => 0x6666_66FF_FFFF_AAEE,
        _ => 0x6666_66FF_FFFF_AAEE,
    }
}

// The four bits of a first byte.
fn bits(first: u8) -> u32
    ensures { result ≡ said_by first }
{
    ((word(first % 16) >> (4 * (first / 16))) % 16) as u32
}

// Where control goes, by the upper two bits.
#[tactic(auto, unfolding(crate::specs::FirstBits::flow_at))]
fn flow_by(upper: u32) -> Flow
    ensures { result ≡ flow_at upper }
{
    match upper {
        1 => Flow::Next,
        2 => Flow::Jump,
        3 => Flow::Branch,
        _ => Flow::Stop,
    }
}

#[tactic(auto, using(crate::proofs::FirstBytes::sized))]
pub fn size_by(first: u8) -> u32
    ensures { result ≡ size_of (form_at (form_of first)) }
{
    bits(first) % 4
}

#[derive(Clone, Copy)]
pub struct FirstByte {
    pub size: u32,
    pub flow: Flow,
}

impl FirstByte {
    pub fn new(size: u32, flow: Flow) -> Self
        ensures { result ≡ record { size = size; flow = flow } }
    {
        Self { size, flow }
    }

    // What this first byte says.
    pub fn read(first: u8) -> Self
        ensures { result ≡ first_says first }
    {
        let said = bits(first);
        Self {
            size: said % 4,
            flow: flow_by(said / 4),
        }
    }
}
