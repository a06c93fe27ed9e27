// The position that a traced position names, or else one outside every image, as targets::name_at answers and the definitions of the index say.
ghost use Rattle.std.specs.Prelude.{◌≡◌};
ghost use Rattle.arrivals.specs.Index.{name_at};

use instruction::Mode;
use targets::Image;

pub fn named_at(mode: Mode, image: &[u8], marks: &[u8], q: u32) -> u32
    ensures { result ≡ name_at mode image.now marks.now q }
{
    if !views::is_traced_at(image, marks, q as usize) {
        return Image::NOWHERE;
    }
    targets::name_at(mode, image, q)
}
