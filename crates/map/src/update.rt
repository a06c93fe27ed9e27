// The map kept up after a step: the bits of the position's instruction set.
ghost use Rattle.std.specs.Prelude.{◌≡◌};
ghost use Rattle.map.specs.Update.{updated_of, update_answer, update_words};
ghost use Rattle.map.specs.declared.update.UpdateError.TheVariants.{View};

use crate::{bits, cover};
use views::ViewError;

#[derive(Clone, Copy, Debug, PartialEq, Eq)]
pub enum UpdateError {
    // 1, 2, 6 and 11, which carries how many words are needed.
    View(ViewError),
    // 17: the position.
    Outside(u32),
}

// What all views refuse, as an update says it.
impl From<ViewError> for UpdateError {
    ghost from_gives = { λ e r. r ≡ View e };

    fn from(e: ViewError) -> UpdateError {
        UpdateError::View(e)
    }
}

// Sets the bits of the traced instruction at p: how many, its bytes.
pub fn update_map(
    image: &[u8],
    marks: &[u8],
    words: &mut [u64],
    p: u32,
) -> Result<usize, UpdateError>
    ensures result_value { updated_of result ≡ update_answer image.now marks.now words.old p }
    ensures words_after { words.new ≡ update_words image.now marks.now words.old p }
{
    views::check_room(image, marks, words.len(), bits::words_for(image.len()))?;
    if !views::is_traced_at(image, marks, p as usize) {
        return Err(UpdateError::Outside(p));
    }
    let size = targets::size_at(image, p);
    cover::cover(words, p, size);
    Ok(size as usize)
}
