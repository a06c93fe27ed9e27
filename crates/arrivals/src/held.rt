// The targets that a traced position had when it was taken up.
ghost use Rattle.std.specs.Prelude.{◌≡◌, ◌&&◌};
ghost use Rattle.targets.specs.Ways.{places_in};
ghost use Rattle.views.specs.Positions.{traced_at};
ghost use Rattle.arrivals.specs.Arrivals.{held_at};
ghost use Rattle.arrivals.specs.Index.{is_held};

use instruction::Mode;
use marks::Mark;
use targets::Places;

// Whether q is traced and had targets: under the exception it had none.
#[tactic(auto, using(views::proofs::TracedAt::traced_marked))]
pub fn had_targets(image: &[u8], marks: &[u8], q: u32) -> bool
    ensures { result ≡ (traced_at image.now marks.now q && is_held marks.now q) }
{
    let at = q as usize;
    views::is_traced_at(image, marks, at) && marks[at] != Mark::FLASH
}

pub fn held_at(mode: Mode, image: &[u8], marks: &[u8], q: u32) -> Places
    ensures { places_in result ≡ held_at mode image.now marks.now q }
{
    if !had_targets(image, marks, q) {
        return Places::Nothing;
    }
    targets::ways_at(mode, image, q).unwrap_or(Places::Nothing)
}
