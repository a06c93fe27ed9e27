// The sums over the accepted images, and how many images were accepted and refused.
ghost use Rattle.std.specs.Prelude.{true, ◌≡◌, ◌+◌, leb};
ghost use Rattle.report_text.specs.Image.{reported_of};
ghost use Rattle.report_text.specs.Sums.{no_sums, adding, fitting};

use crate::figures::Figures;
use crate::image::ImageError;

#[derive(Clone, Copy, Debug, PartialEq, Eq)]
pub struct Sums {
    pub length: u64,
    pub steps: u64,
    pub code: u64,
    pub plain: u64,
    pub shared: u64,
    pub targets: u64,
    pub accepted: u64,
    pub refused: u64,
}

impl Sums {
    // Before the first image.
    pub fn new() -> Self
        ensures { result ≡ no_sums }
    {
        Self {
            length: 0,
            steps: 0,
            code: 0,
            plain: 0,
            shared: 0,
            targets: 0,
            accepted: 0,
            refused: 0,
        }
    }
}

// Whether a sum fits in 64 bits.
fn fits(a: u64, b: u64) -> bool
    ensures { result ≡ leb (a + b) 18446744073709551615 }
{
    b <= u64::MAX - a
}

fn figures_fit(s: Sums, f: Figures) -> bool
    ensures { result ≡ fitting (adding s (reported_of (Ok f))) }
{
    // One test a step: of a chain by && the proof knows no value in the middle.
    if !fits(s.length, f.length) {
        return false;
    }
    if !fits(s.steps, f.steps) {
        return false;
    }
    if !fits(s.code, f.code) {
        return false;
    }
    if !fits(s.plain, f.plain) {
        return false;
    }
    if !fits(s.shared, f.shared) {
        return false;
    }
    if !fits(s.targets, f.targets) {
        return false;
    }
    fits(s.accepted, 1)
}

// Whether the sums with one more image fit.
pub fn image_fits(s: Sums, image: Result<Figures, ImageError>) -> bool
    ensures { result ≡ fitting (adding s (reported_of image)) }
{
    match image {
        Ok(f) => figures_fit(s, f),
        Err(_) => fits(s.refused, 1),
    }
}

// The sums with one more accepted image.
fn add_figures(s: Sums, f: Figures) -> Sums
    requires { fitting (adding s (reported_of (Ok f))) ≡ true }
    ensures { result ≡ adding s (reported_of (Ok f)) }
{
    Sums {
        length: s.length + f.length,
        steps: s.steps + f.steps,
        code: s.code + f.code,
        plain: s.plain + f.plain,
        shared: s.shared + f.shared,
        targets: s.targets + f.targets,
        accepted: s.accepted + 1,
        refused: s.refused,
    }
}

// The sums with one more image.
pub fn add(s: Sums, image: Result<Figures, ImageError>) -> Sums
    requires { fitting (adding s (reported_of image)) ≡ true }
    ensures { result ≡ adding s (reported_of image) }
{
    match image {
        Ok(f) => add_figures(s, f),
        Err(_) => Sums {
            refused: s.refused + 1,
            ..s
        },
    }
}
