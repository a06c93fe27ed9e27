// The listing of a run in a file's bytes.
ghost use Rattle.std.specs.Prelude.{◌≡◌, []};
ghost use Rattle.views.specs.View.{room_after};
ghost use Rattle.list_text.specs.Output.{traced_with};
ghost use Rattle.dis_text.specs.Output.{printed, shown_of, shown_answer};

use crate::message::DisError;
use crate::shown::Shown;
use crate::{message, rooms};
use instruction::Mode;
use listing::Arrivals;
use marks::SizeError;
use targets::Image;
use trace::RunError;
use views::ViewError;

pub fn list_image(
    mode: Mode,
    image: &[u8],
    entries: &[u32],
    pins: &[u32],
    arrivals: Arrivals,
    room: &mut [u8],
) -> Result<Shown, ViewError>
    ensures result_value { shown_of result ≡ shown_answer (traced_with mode image.now entries.now pins.now arrivals) room.old }
    ensures room_after { room.new
        ≡ room_after [] (printed (traced_with mode image.now entries.now pins.now arrivals)) room.old }
{
    let n = image.len();
    if Image::LIMIT < n {
        let long = RunError::Size(SizeError::LongImage(n));
        return message::tell(DisError::Run(long), room);
    }
    let mut marks = rooms::bytes();
    let mut order = rooms::positions();
    match trace::run::run(
        mode,
        image,
        &mut marks[..n],
        &mut order[..n],
        entries,
        pins,
        n as u32,
    ) {
        Ok(_) => {
            let written = listing::listing_with(mode, image, &marks[..n], arrivals, room)?;
            Ok(Shown::Listing(written))
        }
        Err(e) => message::tell(DisError::Run(e), room),
    }
}
