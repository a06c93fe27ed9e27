// The map built from the marks.
ghost use Rattle.std.specs.Prelude.{◌≡◌, false, ◌++◌, ℕ, ◌≤◌, ◌<◌, length, drop};
ghost use Rattle.map.specs.Words.{words_for};
ghost use Rattle.views.specs.Mask.{mask_of};
ghost use Rattle.views.specs.View.{viewed_of, damaged_here};
ghost use Rattle.map.specs.Build.{build_answer, build_words};
ghost use Rattle.map.specs.Packed.{packed};

use crate::{bits, cover};
use views::ViewError;

fn write_map(image: &[u8], marks: &[u8], words: &mut [u64], need: usize)
    requires { (length image.now ≤ length marks.now) × (length image.now ≤ 65536) × (need ≡ words_for (length image.now))
        × (need ≤ length words.old) × ((p : ℕ) → p < length image.now → damaged_here image.now marks.now p ≡ false) }
    ensures { words.new ≡ packed (mask_of image.now marks.now) ++ drop need words.old }
{
    words[..need].fill(0);
    for p in 0..image.len() {
        cover::cover_at(image, marks, words, p);
    }
}

// One bit for each image byte, 1 on each byte of a traced instruction.
pub fn build_map(image: &[u8], marks: &[u8], words: &mut [u64]) -> Result<usize, ViewError>
    ensures result_value { viewed_of result ≡ build_answer image.now marks.now words.old }
    ensures words_after { words.new ≡ build_words image.now marks.now words.old }
{
    let need = bits::words_for(image.len());
    views::check_room(image, marks, words.len(), need)?;
    write_map(image, marks, words, need);
    Ok(need)
}
