// An image that is complete: its line, and the sums with it.
ghost use Rattle.std.specs.Prelude.{◌≤◌, length};
ghost use Rattle.report_text.specs.Term.{most_printed, Finishing};

use crate::sums::Sums;
use crate::term::Term;
use crate::{image, line, sums};
use text::cut;

// The record afterwards, and how many bytes were printed.
#[derive(Clone, Copy)]
pub struct Finished {
    pub term: Term,
    pub printed: usize,
}

// Prints the line of an image and adds it to the sums, or prints 22 where one would not fit.
pub fn finish(s: Sums, text: &[u8], out: &mut [u8]) -> Finished
    requires { most_printed ≤ length out.old }
    ensures { Finishing s text.now out.old out.new result }
{
    let answer = image::report_image(text);
    if !sums::image_fits(s, answer) {
        let n = line::put_sum_refusal(out);
        return Finished {
            term: Term {
                sums: s,
                held: 0,
                fresh: true,
                over: true,
            },
            printed: n,
        };
    }
    let sums = sums::add(s, answer);
    let end = cut::end(text, 0, cut::LINE_END);
    let n = line::put_image(&text[0..end], answer, out);
    Finished {
        term: Term {
            sums,
            held: 0,
            fresh: true,
            over: false,
        },
        printed: n,
    }
}
