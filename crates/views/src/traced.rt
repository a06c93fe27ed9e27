// Traced positions.
ghost use Rattle.std.specs.Prelude.{◌≡◌};
ghost use Rattle.views.specs.Positions.{traced_at};

use marks::Mark;

// Whether a position inside the image is traced.
#[tactic(auto, using(crate::proofs::TracedAt::past_marks))]
pub fn is_traced_at(image: &[u8], marks: &[u8], p: usize) -> bool
    ensures { result ≡ traced_at image.now marks.now p }
{
    p < image.len() && p < marks.len() && Mark::is_traced(marks[p])
}
