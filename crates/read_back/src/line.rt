// One line, without its byte 10.
ghost use Rattle.std.specs.Prelude.{◌≡◌, true, [], ◌∷◌, ◌++◌, ◌≤◌, length};
ghost use Rattle.listing.specs.Rest.{code_rest};
ghost use Rattle.text.specs.Bytes.{bytes_of};
ghost use Rattle.text.specs.Same.{same};
ghost use Rattle.read_back.specs.Line.{letter_on, has_bytes, is_code, is_line, record_of};
ghost use Rattle.read_back.specs.Offsets.{are_places, is_found_rest, is_data_rest, position_at, position_in, digits_at, bytes_at, is_start_at, Spaced};

use crate::place::Record;
use instruction::Mode;
use targets::Image;
use text::{bytes, cut, four, hex, same};

// A line's letter, tab and position.
const START: usize = 6;

// Where the digits of its bytes begin, after a tab.
pub const DIGITS: usize = 7;

// The bytes that an `I` line has at most, without its byte 10.
const WIDEST: usize = 30;

// A tab and four digits, for each position.
fn are_places(s: &[u8]) -> bool
    ensures { result ≡ are_places s.now }
{
    let (places, rest) = s.as_chunks::<5>();
    for place in places {
        if place[0] != cut::TAB {
            return false;
        }
        if !hex::is_hex(&place[1..]) {
            return false;
        }
    }
    rest.len() == 0
}

fn is_found(rest: &[u8]) -> bool
    ensures { result ≡ is_found_rest rest.now }
{
    rest.len() != 0 && are_places(rest)
}

fn is_data(rest: &[u8]) -> bool
    ensures { result ≡ is_data_rest rest.now }
{
    if rest.len() == 0 {
        return false;
    }
    if rest[0] != cut::TAB {
        return false;
    }
    bytes::is_bytes(&rest[1..], Record::MOST_DATA)
}

// `I` and `D` have bytes.
pub fn has_bytes(letter: u8) -> bool
    ensures { result ≡ has_bytes letter }
{
    matches!(letter, b'I' | b'D')
}

// The digits of the bytes on a line: its third field.
fn digits(line: &[u8]) -> &[u8]
    ensures { result.now ≡ digits_at line.now }
{
    if line.len() <= START {
        return &line[0..0];
    }
    let e = cut::end(line, DIGITS, cut::TAB);
    &line[DIGITS..e]
}

// `I`: where its bytes are digits, two for each, it begins as it is printed; what follows them is written again and compared.
fn is_code(mode: Mode, line: &[u8], p: u32) -> bool
    requires { (is_start_at line.now ≡ true) × (p ≡ position_at line.now) × (letter_on line.now ≡ 73) }
    ensures { result ≡ is_code mode p (bytes_at line.now) line.now }
{
    let n = line.len();
    if WIDEST < n {
        return false;
    }
    if n == START {
        return false;
    }
    if line[START] != cut::TAB {
        return false;
    }
    let d = digits(line);
    let k = d.len() / 2;
    if k * 2 != d.len() {
        return false;
    }
    if !hex::is_hex(d) {
        return false;
    }
    is_rest(mode, p, d, &line[DIGITS + d.len()..])
}

// Whether this follows these digits on the `I` line of their bytes.
fn is_rest(mode: Mode, p: u32, d: &[u8], rest: &[u8]) -> bool
    requires { (length d.now ≤ 30) × (length rest.now ≤ 30) }
    ensures { result ≡ same (rest.now ++ 10 ∷ []) (code_rest mode p (bytes_of d.now)) }
{
    let mut code = [0u8; 16];
    bytes::put(d, &mut code, 0);
    let mut room = [0u8; 32];
    let k = listing::code_rest(mode, p, &code[..d.len() / 2], &mut room);
    let n = rest.len();
    if k != n + 1 {
        return false;
    }
    if room[n] != cut::LINE_END {
        return false;
    }
    same::same(rest, &room[..n])
}

// The position of a line that begins with a byte, a tab and four digits; 65,536 of any other, as the definition `four_in` has it.
pub fn position(line: &[u8]) -> u32
    ensures { result ≡ position_in line.now }
{
    if line.len() < START {
        return Image::NOWHERE;
    }
    if line[1] != cut::TAB {
        return Image::NOWHERE;
    }
    four::read_four(&line[2..START])
}

// Whether a line that begins so, with this position, is good.
pub fn is_line(mode: Mode, line: &[u8], p: u32) -> bool
    requires { (is_start_at line.now ≡ true) × (p ≡ position_at line.now) }
    ensures { result ≡ is_line mode line.now }
{
    match line[0] {
        b'L' => line.len() == START,
        b'O' => is_found(&line[START..]),
        b'A' => is_found(&line[START..]),
        b'I' => is_code(mode, line, p),
        b'D' => is_data(&line[START..]),
        _ => false,
    }
}

// What a good line says. A `D` line ends with its bytes.
pub fn record(line: &[u8], p: u32) -> Record
    requires { Spaced line.now × (p ≡ position_at line.now) }
    ensures { result ≡ record_of line.now }
{
    let letter = line[0];
    if letter == b'D' {
        return Record::new(letter, p, (line.len() - START) / 2);
    }
    if letter == b'I' {
        return Record::new(letter, p, digits(line).len() / 2);
    }
    Record::new(letter, p, (line.len() - START) / 5)
}
