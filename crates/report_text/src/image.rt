// What is reported of one image.
ghost use Rattle.std.specs.Prelude.{◌≡◌, ◌≤◌, length, drop};
ghost use Rattle.views.specs.View.{Sound};
ghost use Rattle.text.specs.Cut.{lines, up_to};
ghost use Rattle.report_text.specs.Figures.{figures};
ghost use Rattle.list_text.specs.Text.{others};
ghost use Rattle.report_text.specs.Image.{number_of, steps_of, reported_of, traced, input_lines, input_answer, image_answer};

use crate::figures::Figures;
use crate::{count, name};
use instruction::Mode;
use list_text::rooms;
use text::cut;
use trace::Ran;

// Why no figures are reported of an image.
#[derive(Clone, Copy, Debug, PartialEq, Eq)]
pub enum ImageError {
    Malformed,
    Cut,
}

impl ImageError {
    // The number of the refusal.
    pub fn number(self) -> u64
        ensures { result ≡ number_of self }
    {
        match self {
            Self::Malformed => 13,
            Self::Cut => 5,
        }
    }
}

fn measure(image: &[u8], marks: &[u8], steps: u32) -> Figures
    requires { (length image.now ≤ 16384) × Sound image.now marks.now }
    ensures { result ≡ figures image.now marks.now steps }
{
    let n = image.len();
    let bytes = count::count_bytes(image, marks);
    Figures {
        length: n as u64,
        steps: steps as u64,
        code: bytes.code as u64,
        plain: (n - bytes.code) as u64,
        shared: bytes.shared as u64,
        targets: count::target_marks(image, marks) as u64,
    }
}

// How many steps a run took.
fn steps_of(ran: Ran) -> u32
    ensures { result ≡ steps_of ran }
{
    match ran {
        Ran::Finished(c) | Ran::Stopped(c) => c.steps,
    }
}

// An image run from these entries.
fn trace_image(image: &[u8], entries: &[u32]) -> Result<Figures, ImageError>
    requires { length image.now ≤ 16384 }
    ensures { reported_of result ≡ traced image.now entries.now }
{
    let n = image.len();
    let mut marks = rooms::bytes();
    let mut order = rooms::positions();
    match trace::run::run(
        Mode::Unwrapped,
        image,
        &mut marks[..n],
        &mut order[..n],
        entries,
        &entries[..0],
        n as u32,
    ) {
        Ok(ran) => Ok(measure(image, &marks[..n], steps_of(ran))),
        // Rooms as long as the image leave no refusal but an instruction cut off.
        Err(_) => Err(ImageError::Cut),
    }
}

// Of the listing program's lines.
fn report_input(text: &[u8]) -> Result<Figures, ImageError>
    ensures { reported_of result ≡ input_answer (lines text.now) }
{
    let mut entries = rooms::entries();
    let mut image = rooms::bytes();
    match list_text::parse(text, &mut entries, &mut image) {
        Ok(c) => trace_image(&image[..c.bytes], &entries[..c.entries]),
        // Rooms for the longest input leave no refusal but a bad line.
        Err(_) => Err(ImageError::Malformed),
    }
}

// Where the listing program's lines begin in these: after a `-` that stands alone on the first.
fn input_start(text: &[u8]) -> usize
    ensures { (result ≤ length text.now)
        × (input_answer (lines (drop result text.now)) ≡ input_answer (input_lines (lines text.now))) }
{
    if cut::end(text, 0, cut::LINE_END) != 1 {
        return 0;
    }
    if text[0] != b'-' {
        return 0;
    }
    1
}

// Where the second line of a text begins, if the first ends there.
fn second_line(text: &[u8], end: usize) -> usize
    requires { end ≡ length (up_to 10 text.now) }
    ensures { (result ≤ length text.now) × (lines (drop result text.now) ≡ others (lines text.now)) }
{
    if end < text.len() {
        return end + 1;
    }
    end
}

// Of an image's lines, the first of which names it.
pub fn report_image(text: &[u8]) -> Result<Figures, ImageError>
    ensures { reported_of result ≡ image_answer (lines text.now) }
{
    let e = cut::end(text, 0, cut::LINE_END);
    let Some(_) = name::name_in(&text[..e]) else {
        return Err(ImageError::Malformed);
    };
    let from = second_line(text, e);
    let rest = &text[from..];
    let start = input_start(rest);
    report_input(&rest[start..])
}
