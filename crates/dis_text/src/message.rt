// The line that says what is wrong.
ghost use Rattle.std.specs.Prelude.{◌≡◌, [], ◌∷◌, ◌+◌, ◌≤◌, length};
ghost use Rattle.instruction.specs.Answer.{refused};
ghost use Rattle.views.specs.View.{room_after};
ghost use Rattle.text.specs.Puts.{Puts};
ghost use Rattle.listing.specs.Hex.{hex4};
ghost use Rattle.list_text.specs.Decimal.{decimal};
ghost use Rattle.dis_text.specs.Message.{reason, message};
ghost use Rattle.dis_text.specs.Output.{shown_of, shown_answer};
ghost use Rattle.dis_text.specs.Told.{number_of, values_of, cut_reason, bad_reason};

use crate::shown::Shown;
use instruction::CutOff;
use list_text::decimal;
use listing::hex1;
use marks::SizeError;
use trace::RunError;
use views::ViewError;

// Why there is no listing.
#[derive(Clone, Copy)]
pub enum DisError {
    // Of a run whose rooms are as long as the image neither 2 nor 3 comes, but its error has them.
    Run(RunError),
    // 13: the number of a word.
    Bad(usize),
}

// Writes a byte at a place, if that is inside the room; the next place.
fn put_byte(room: &mut [u8], at: usize, b: u8) -> usize
    requires { at ≤ 2000 }
    ensures { Puts (b ∷ []) at room.old room.new result }
{
    if at < room.len() {
        room[at] = b;
    }
    at + 1
}

// Writes a text at a place; the next place. What falls past the end of the room is counted and not written.
fn put(text: &[u8], room: &mut [u8], at: usize) -> usize
    requires { (at ≤ 1000) × (length text.now ≤ 1000) }
    ensures { Puts text.now at room.old room.new result }
{
    let mut to = at;
    for b in text {
        to = put_byte(room, to, *b);
    }
    to
}

// Writes a number in decimal; the next place.
fn put_decimal(n: usize, room: &mut [u8], at: usize) -> usize
    requires { at ≤ 1000 }
    ensures puts { Puts (decimal n) at room.old room.new result }
    ensures upper_bound { result ≤ at + 20 }
{
    let k = decimal::width(n);
    decimal::put(n, k, room, at);
    at + k
}

// Writes a position; the next place.
fn put_position(p: u32, room: &mut [u8], at: usize) -> usize
    requires { at ≤ 1000 }
    ensures { Puts (hex4 p) at room.old room.new result }
{
    let digits = [hex1(p / 4096), hex1(p / 256), hex1(p / 16), hex1(p)];
    put(&digits, room, at)
}

// Where an instruction is cut off, and how many bytes are missing.
fn put_cut(c: CutOff, room: &mut [u8], at: usize) -> usize
    requires { at ≤ 100 }
    ensures puts { Puts (cut_reason c) at room.old room.new result }
    ensures upper_bound { result ≤ at + 100 }
{
    let a = put(b"the file ends inside the instruction at ", room, at);
    let b = put_position(c.position, room, a);
    let d = put(b", bytes missing: ", room, b);
    put_decimal(c.missing as usize, room, d)
}

// Which word is none.
fn put_bad(k: usize, room: &mut [u8], at: usize) -> usize
    requires { at ≤ 100 }
    ensures puts { Puts (bad_reason k) at room.old room.new result }
    ensures upper_bound { result ≤ at + 100 }
{
    let a = put(b"not understood: argument ", room, at);
    put_decimal(k, room, a)
}

fn put_reason(e: DisError, room: &mut [u8], at: usize) -> usize
    requires { at ≤ 100 }
    ensures puts { Puts (reason (number_of e) (values_of e)) at room.old room.new result }
    ensures upper_bound { result ≤ at + 100 }
{
    match e {
        DisError::Run(RunError::Size(SizeError::LongImage(_))) => {
            put(b"the file is longer than 65536 bytes", room, at)
        }
        DisError::Run(RunError::Size(SizeError::ShortMarks(_))) => put(b"refused", room, at),
        DisError::Run(RunError::ShortOrder(_)) => put(b"refused", room, at),
        DisError::Run(RunError::Cut(c)) => put_cut(c, room, at),
        DisError::Bad(k) => put_bad(k, room, at),
    }
}

fn number_of(e: DisError) -> usize
    ensures { result ≡ number_of e }
{
    match e {
        DisError::Run(RunError::Size(SizeError::LongImage(_))) => 1,
        DisError::Run(RunError::Size(SizeError::ShortMarks(_))) => 2,
        DisError::Run(RunError::ShortOrder(_)) => 3,
        DisError::Run(RunError::Cut(_)) => 5,
        DisError::Bad(_) => 13,
    }
}

// Writes as much of the line as there is room for: how long it is.
fn put_message(e: DisError, room: &mut [u8]) -> usize
    ensures { Puts (message (number_of e) (values_of e)) 0 room.old room.new result }
{
    let a = put(b"dis: ", room, 0);
    let b = put_decimal(number_of(e), room, a);
    let c = put(b": ", room, b);
    let d = put_reason(e, room, c);
    put(b"\n", room, d)
}

// The line, or 11 with how many bytes are needed.
pub fn tell(e: DisError, room: &mut [u8]) -> Result<Shown, ViewError>
    ensures result_value { shown_of result ≡ shown_answer (refused (number_of e) (values_of e)) room.old }
    ensures room_after { room.new ≡ room_after [] (message (number_of e) (values_of e)) room.old }
{
    let need = put_message(e, &mut room[..0]);
    if room.len() < need {
        return Err(ViewError::NoRoom(need));
    }
    put_message(e, room);
    Ok(Shown::Message(need))
}
