// The lines of the listing. A line that may be left out is a function of its own. Each says how far it goes at most, so that a place never
// runs over.
ghost use Rattle.std.specs.Prelude.{◌≡◌, cond, [], ◌∷◌, map, ◌+◌, ◌^◌, ◌≤◌, ◌<◌, eqb, length};
ghost use Rattle.instruction.specs.Answer.{accepted};
ghost use Rattle.instruction.specs.Decode.{decode_answer, parts_answer};
ghost use Rattle.instruction.specs.Parts.{made_of};
ghost use Rattle.targets.specs.Here.{here_of};
ghost use Rattle.arrivals.specs.Arrivals.{arrivals_of};
ghost use Rattle.views.specs.Overlaps.{overlaps_in, overlaps_of};
ghost use Rattle.arrivals.specs.Index.{next_held, next_fall};
ghost use Rattle.listing.specs.Alone.{text_of, rest_alone};
ghost use Rattle.listing.specs.Hex.{hex4};
ghost use Rattle.listing.specs.Line.{fields_text};
ghost use Rattle.listing.specs.Lines.{label_line, overlap_line, arrival_line, instr_text, here_line, all_zero, data_line};
ghost use Rattle.text.specs.Puts.{Puts};

use crate::chain::Indexed;
use crate::{operands, pieces};
use instruction::{Mode, Parts};
use views::Overlaps;

// `L`, where there is a target mark.
pub fn put_label(out: &mut [u8], at: usize, p: u32, mark: u8) -> usize
    requires { at < 2 ^ 56 }
    ensures { Puts (cond (eqb mark 0) [] (label_line p)) at out.old out.new result }
{
    if mark == 0 {
        return at;
    }
    let a = pieces::put_start(out, at, b'L', p);
    pieces::put_byte(out, a, b'\n')
}

// Positions as fields, and the end of the line.
fn put_places(out: &mut [u8], at: usize, places: &[u32]) -> usize
    requires { (at < 2 ^ 55) × (length places.now ≤ 3) }
    ensures { Puts (fields_text (map hex4 places.now)) at out.old out.new result }
{
    let mut a = at;
    for p in places {
        a = pieces::put_place(out, a, *p);
    }
    pieces::put_byte(out, a, b'\n')
}

fn put_found(out: &mut [u8], at: usize, o: Overlaps) -> usize
    requires { at < 2 ^ 55 }
    ensures { Puts (fields_text (map hex4 (overlaps_in o))) at out.old out.new result }
{
    match o {
        Overlaps::Nothing => put_places(out, at, &[]),
        Overlaps::One(a) => put_places(out, at, &[a]),
        Overlaps::Two(a, b) => put_places(out, at, &[a, b]),
        Overlaps::Three(a, b, c) => put_places(out, at, &[a, b, c]),
    }
}

// `O`, where there are overlaps.
pub fn put_overlaps(image: &[u8], marks: &[u8], out: &mut [u8], at: usize, p: u32) -> usize
    requires { at < 2 ^ 54 }
    ensures puts { Puts (overlap_line p (overlaps_of image.now marks.now p)) at out.old out.new result }
    ensures upper_bound { result ≤ at + 2 ^ 20 }
{
    let o = views::overlaps_at(image, marks, p);
    if o.count() == 0 {
        return at;
    }
    let a = pieces::put_start(out, at, b'O', p);
    put_found(out, a, o)
}

// The arrivals at p as fields, and the end of the line, by the lowest that names it and the lowest from which control goes on to it.
fn put_arrived(lent: &Indexed, out: &mut [u8], at: usize, p: u32, named: u32, falls: u32) -> usize
    requires { (at < 2 ^ 55) × (p < length lent.now.image.now)
        × (named ≡ next_held lent.now.mode lent.now.image.now lent.now.marks.now p 0)
        × (falls ≡ next_fall lent.now.mode lent.now.image.now lent.now.marks.now p 0) }
    ensures puts { Puts
        (fields_text (map hex4 (arrivals_of lent.now.mode lent.now.image.now lent.now.marks.now p)))
        at out.old out.new result }
    ensures upper_bound { result ≤ at + 327681 }
{
    let n = lent.image.len() as u32;
    let mut a = at;
    let mut c = named;
    let mut f = falls;
    let mut q = c.min(f);
    // The next arrival is the lower of two that are looked up, so there is no range to go through.
    while q < n {
        a = pieces::put_place(out, a, q);
        c = lent.held_past(p, c, q);
        f = lent.fall_past(p, f, q);
        q = c.min(f);
    }
    pieces::put_byte(out, a, b'\n')
}

// `A`, where there are any arrivals.
pub fn put_arrivals(lent: &Indexed, out: &mut [u8], at: usize, p: u32) -> usize
    requires { (at < 2 ^ 54) × (p < length lent.now.image.now) }
    ensures puts { Puts (arrival_line p (arrivals_of lent.now.mode lent.now.image.now lent.now.marks.now p)) at out.old out.new result }
    ensures upper_bound { result ≤ at + 2 ^ 20 }
{
    let first = arrivals::first(lent.index, p);
    let named = lent.held_from(p, first);
    let falls = arrivals::next_fall(lent.mode, lent.image, lent.marks, p, 0);
    if lent.image.len() <= named.min(falls) as usize {
        return at;
    }
    let a = pieces::put_start(out, at, b'A', p);
    put_arrived(lent, out, a, p, named, falls)
}

// `I`, of the parts that decode answers of these bytes.
fn put_parts(mode: Mode, bytes: &[u8], out: &mut [u8], at: usize, p: u32, v: Parts) -> usize
    requires { (at < 2 ^ 54) × (accepted v ≡ parts_answer bytes.now) }
    ensures puts { Puts (instr_text mode p (made_of v) bytes.now) at out.old out.new result }
    ensures upper_bound { result ≤ at + 2 ^ 18 }
{
    let n = v.size();
    let word = v.mnemonic();
    let next = p as u64 + n as u64;
    let a1 = pieces::put_start(out, at, b'I', p);
    let a2 = pieces::put_bytes(out, a1, &bytes[..n]);
    let a3 = pieces::put_word(out, a2, word);
    operands::put_operands(out, a3, mode, next, v)
}

// What follows the bytes of an `I` line, of the parts of an instruction that ends at next.
pub fn put_rest(mode: Mode, out: &mut [u8], next: u64, v: Parts) -> usize
    ensures { Puts (rest_alone mode next v) 0 out.old out.new result }
{
    let a = pieces::put_word(out, 0, v.mnemonic());
    operands::put_operands(out, a, mode, next, v)
}

// `I`, of the instruction with which these bytes begin, where decode answers one.
pub fn put_instr(mode: Mode, bytes: &[u8], out: &mut [u8], at: usize, p: u32) -> usize
    requires { at < 2 ^ 54 }
    ensures puts { Puts (text_of mode p bytes.now (decode_answer bytes.now)) at out.old out.new result }
    ensures upper_bound { result ≤ at + 2 ^ 18 }
{
    match Parts::decode(bytes) {
        Ok(v) => put_parts(mode, bytes, out, at, p, v),
        Err(_) => at,
    }
}

// `I`, of what stands at p.
pub fn put_here(mode: Mode, image: &[u8], out: &mut [u8], at: usize, p: u32) -> usize
    requires { at < 2 ^ 54 }
    ensures puts { Puts (here_line mode image.now p (here_of image.now p)) at out.old out.new result }
    ensures upper_bound { result ≤ at + 2 ^ 20 }
{
    if image.len() <= p as usize {
        return at;
    }
    put_instr(mode, &image[p as usize..], out, at, p)
}

fn all_zero(bytes: &[u8]) -> bool
    ensures { result ≡ all_zero bytes.now }
{
    bytes.iter().all(|b| *b == 0)
}

// `D`, where the bytes are not all zero.
pub fn put_data(out: &mut [u8], at: usize, p: u32, bytes: &[u8]) -> usize
    requires { (at < 2 ^ 54) × (length bytes.now ≤ 65536) }
    ensures puts { Puts (data_line p bytes.now) at out.old out.new result }
    ensures upper_bound { result ≤ at + 2 ^ 20 }
{
    if all_zero(bytes) {
        return at;
    }
    let a = pieces::put_start(out, at, b'D', p);
    let b = pieces::put_bytes(out, a, bytes);
    pieces::put_byte(out, b, b'\n')
}
