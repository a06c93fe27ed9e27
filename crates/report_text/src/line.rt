// The lines of a report.
ghost use Rattle.std.specs.Prelude.{◌≡◌, ◌++◌, ◌+◌, ◌*◌, ◌≤◌, length};
ghost use Rattle.text.specs.Puts.{Puts};
ghost use Rattle.list_text.specs.Refusal.{number_line};
ghost use Rattle.report_text.specs.Image.{reported_of};
ghost use Rattle.report_text.specs.Name.{name_of};
ghost use Rattle.report_text.specs.Report.{fields_of, told_of, image_line, total_line};

use crate::figures::Figures;
use crate::image::ImageError;
use crate::sums::Sums;
use crate::{copy, name};
use list_text::decimal;
use text::cut;

// Writes each number with a tab before it, 21 bytes at most: the next place.
fn put_fields(numbers: &[u64], room: &mut [u8], at: usize) -> usize
    requires { at + 21 * length numbers.now ≤ length room.old }
    ensures puts { Puts (fields_of numbers.now) at room.old room.new result }
    ensures upper_bound { result ≤ at + 21 * length numbers.now }
{
    let mut to = at;
    for number in numbers {
        let n = *number as usize;
        let k = decimal::width(n);
        room[to] = cut::TAB;
        decimal::put(n, k, room, to + 1);
        to += k + 1;
    }
    to
}

fn put_figures(f: Figures, room: &mut [u8], at: usize) -> usize
    requires { at + 126 ≤ length room.old }
    ensures puts { Puts (told_of (reported_of (Ok f))) at room.old room.new result }
    ensures upper_bound { result ≤ at + 126 }
{
    let numbers = [f.length, f.steps, f.code, f.plain, f.shared, f.targets];
    put_fields(&numbers, room, at)
}

fn put_refusal(error: ImageError, room: &mut [u8], at: usize) -> usize
    requires { at + 126 ≤ length room.old }
    ensures puts { Puts (told_of (reported_of (Err error))) at room.old room.new result }
    ensures upper_bound { result ≤ at + 126 }
{
    room[at] = cut::TAB;
    room[at + 1] = b'R';
    let numbers = [error.number()];
    put_fields(&numbers, room, at + 2)
}

// Writes an image's line after its name.
fn put_told(image: Result<Figures, ImageError>, room: &mut [u8], at: usize) -> usize
    requires { at + 126 ≤ length room.old }
    ensures puts { Puts (told_of (reported_of image)) at room.old room.new result }
    ensures upper_bound { result ≤ at + 126 }
{
    match image {
        Ok(f) => put_figures(f, room, at),
        Err(error) => put_refusal(error, room, at),
    }
}

// Writes a name: the next place.
fn put_name(name: &[u8], room: &mut [u8]) -> usize
    requires { length name.now ≤ length room.old }
    ensures { Puts name.now 0 room.old room.new result }
{
    copy::copy(name, room, 0);
    name.len()
}

// Writes the line of an image with this name: how long it is.
fn put_named(name: &[u8], image: Result<Figures, ImageError>, room: &mut [u8]) -> usize
    requires { (length name.now ≤ 32) × (159 ≤ length room.old) }
    ensures puts { Puts (image_line name.now (reported_of image)) 0 room.old room.new result }
    ensures upper_bound { result ≤ 159 }
{
    let named = put_name(name, room);
    let told = put_told(image, room, named);
    room[told] = cut::LINE_END;
    told + 1
}

// Writes the line of an image whose first line is this: how long it is.
pub fn put_image(first: &[u8], image: Result<Figures, ImageError>, room: &mut [u8]) -> usize
    requires { 159 ≤ length room.old }
    ensures puts { Puts (image_line (name_of first.now) (reported_of image)) 0 room.old room.new result }
    ensures upper_bound { result ≤ 159 }
{
    match name::name_in(first) {
        Some(name) => put_named(name, image, room),
        None => put_named(b"-", image, room),
    }
}

// Writes the line of the refusal 22: how long it is.
pub fn put_sum_refusal(room: &mut [u8]) -> usize
    requires { 5 ≤ length room.old }
    ensures puts { Puts (number_line 22) 0 room.old room.new result }
    ensures upper_bound { result ≤ 159 }
{
    room[0] = b'R';
    room[1] = cut::TAB;
    room[2] = b'2';
    room[3] = b'2';
    room[4] = cut::LINE_END;
    5
}

// Writes the last line at a place: the next place.
pub fn put_total(s: Sums, room: &mut [u8], at: usize) -> usize
    requires { at + 170 ≤ length room.old }
    ensures puts { Puts (total_line s) at room.old room.new result }
    ensures upper_bound { result ≤ at + 170 }
{
    room[at] = b'T';
    let numbers = [
        s.length, s.steps, s.code, s.plain, s.shared, s.targets, s.accepted, s.refused,
    ];
    let told = put_fields(&numbers, room, at + 1);
    room[told] = cut::LINE_END;
    told + 1
}
