// Damaged marks that a step would read.
ghost use Rattle.std.specs.Prelude.{◌≡◌, ◌&&◌, [], ◌∷◌, ltb, length, get_or};
ghost use Rattle.instruction.specs.Answer.{judge};
ghost use Rattle.marks.specs.Refusals.{damaged};
ghost use Rattle.trace.specs.Step.{damages, damage_refusals, damage_of};
ghost use Rattle.targets.specs.Ways.{places_in};
ghost use Rattle.reach.specs.Tracer.{targets};
ghost use Rattle.marks.specs.Taken.{going_to};

use marks::Mark;
use targets::Places;

// Whether a position is inside and its mark is damaged.
fn is_damaged_mark(marks: &[u8], n: usize, t: u32) -> bool
    ensures { result ≡ (ltb t n && damaged (get_or marks.now t 0)) }
{
    (t as usize) < n && Mark::HIGHEST < Mark::at(marks, t)
}

// Refuses a damaged mark, by its position.
fn check_one(marks: &[u8], n: usize, t: u32) -> Result<(), u32>
    ensures { damage_of result ≡ judge (damages n marks.now (t ∷ [])) tt }
{
    if is_damaged_mark(marks, n, t) {
        return Err(t);
    }
    Ok(())
}

// The first of these positions that is damaged is refused.
fn check_all(marks: &[u8], n: usize, ps: Places) -> Result<(), u32>
    ensures { damage_of result ≡ judge (damages n marks.now (places_in ps)) tt }
{
    match ps {
        Places::Nothing => Ok(()),
        Places::First(s) => check_one(marks, n, s),
        Places::Both(s, t) => {
            check_one(marks, n, s)?;
            check_one(marks, n, t)
        }
    }
}

// Refuses the first damaged mark, by its position, that a step at p would read besides p's own, where these are the targets.
pub fn check(image: &[u8], marks: &[u8], p: u32, to: Places) -> Result<(), u32>
    ensures { damage_of result
        ≡ judge
        (damage_refusals image.now marks.now p (targets (going_to image.now (places_in to)) marks.now p))
        tt }
{
    if marks::is_flash(image, p) {
        let before = Mark::at(marks, p - 2);
        if Mark::HIGHEST < before {
            return Err(p - 2);
        }
        // Under the exception the targets are not read.
        if Mark::is_traced(before) {
            return Ok(());
        }
    }
    check_all(marks, image.len(), to)
}
