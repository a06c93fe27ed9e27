// The tabbed listing.
ghost use Rattle.std.specs.Prelude.{◌≡◌, true, false};
ghost use Rattle.text.specs.Puts.{Puts, Needed};
ghost use Rattle.views.specs.View.{Sound, viewed_of};
ghost use Rattle.listing.specs.Lent.{text_of, text_answer, text_room};
ghost use Rattle.listing.specs.Walk.{unchosen, listing_answer, listing_room};
ghost use Rattle.listing.specs.declared.tabbed.Arrivals.TheVariants.{Declined};

use crate::walk::{Lent, Table};
use crate::{rooms, walk};
use instruction::Mode;
use views::ViewError;

// The bytes that a position has at most, without arrivals.
const MOST: usize = 60;

// And with them, all positions taken together.
const MOST_WITH: usize = 77;

// Whether the listing shows arrivals.
#[derive(Clone, Copy)]
pub enum Arrivals {
    Chosen,
    Declined,
}

impl Arrivals {
    // Without a choice.
    pub const DEFAULT: Arrivals = Arrivals::Chosen;
}

// The listing without arrivals, by the target marks: as much of it as the room holds is written; how many bytes it has.
fn put_declined<'a>(mode: Mode, image: &'a [u8], marks: &'a [u8], room: &mut [u8]) -> usize
    requires { Sound image.now marks.now }
    ensures { Puts (text_of mode image.now marks.now false) 0 room.old room.new result }
{
    let n = image.len();
    let mut labels = rooms::bytes();
    // Sound marks are not refused, and the room is as long as any image.
    let _ = views::target_marks(mode, image, marks, &mut labels);
    let table = Table::Labels(&labels[..n]);
    let lent = Lent {
        mode,
        image,
        marks,
        table,
    };
    walk::put_walk(&lent, room)
}

// The same with arrivals, by an index, which tells the target marks too.
fn put_chosen<'a>(mode: Mode, image: &'a [u8], marks: &'a [u8], room: &mut [u8]) -> usize
    requires { Sound image.now marks.now }
    ensures { Puts (text_of mode image.now marks.now true) 0 room.old room.new result }
{
    let n = 2 * image.len();
    let mut index = rooms::cells();
    arrivals::index_into(mode, image, marks, &mut index[..n]);
    let table = Table::Index(&index[..n]);
    let lent = Lent {
        mode,
        image,
        marks,
        table,
    };
    walk::put_walk(&lent, room)
}

// The text, with arrivals or without. Either has a function of its own for its table.
fn put_text<const CHOSEN: bool>(mode: Mode, image: &[u8], marks: &[u8], room: &mut [u8]) -> usize
    requires { Sound image.now marks.now }
    ensures { Puts (text_of mode image.now marks.now CHOSEN) 0 room.old room.new result }
{
    if CHOSEN {
        return put_chosen(mode, image, marks, room);
    }
    put_declined(mode, image, marks, room)
}

// How many bytes it has. Where the room holds every text of so many positions, that many: then nothing is to be measured.
fn needed<const CHOSEN: bool>(mode: Mode, image: &[u8], marks: &[u8], room: usize) -> usize
    requires { Sound image.now marks.now }
    ensures { Needed (text_of mode image.now marks.now CHOSEN) room result }
{
    let each = if CHOSEN { MOST_WITH } else { MOST };
    let most = each * image.len();
    if most <= room {
        return most;
    }
    let mut none = [0u8; 1];
    put_text::<CHOSEN>(mode, image, marks, &mut none)
}

// The listing of the traced image, with arrivals or without: how many bytes were written. Either is never compiled into its caller, so that
// it takes the stack of its own table alone.
#[inline(never)]
fn listing_by<const CHOSEN: bool>(
    mode: Mode,
    image: &[u8],
    marks: &[u8],
    room: &mut [u8],
) -> Result<usize, ViewError>
    ensures result_value { viewed_of result ≡ text_answer mode image.now marks.now CHOSEN room.old }
    ensures room_after { room.new ≡ text_room mode image.now marks.now CHOSEN room.old }
{
    views::check(image, marks)?;
    let need = needed::<CHOSEN>(mode, image, marks, room.len());
    if room.len() < need {
        return Err(ViewError::NoRoom(need));
    }
    Ok(put_text::<CHOSEN>(mode, image, marks, room))
}

// Without arrivals.
pub fn listing_declined(
    mode: Mode,
    image: &[u8],
    marks: &[u8],
    room: &mut [u8],
) -> Result<usize, ViewError>
    ensures result_value { viewed_of result ≡ listing_answer mode image.now marks.now Declined room.old }
    ensures room_after { room.new ≡ listing_room mode image.now marks.now Declined room.old }
{
    listing_by::<false>(mode, image, marks, room)
}

// The listing of the traced image, with arrivals where they are chosen: how many bytes were written.
pub fn listing_with(
    mode: Mode,
    image: &[u8],
    marks: &[u8],
    arrivals: Arrivals,
    room: &mut [u8],
) -> Result<usize, ViewError>
    ensures result_value { viewed_of result ≡ listing_answer mode image.now marks.now arrivals room.old }
    ensures room_after { room.new ≡ listing_room mode image.now marks.now arrivals room.old }
{
    match arrivals {
        Arrivals::Chosen => listing_by::<true>(mode, image, marks, room),
        Arrivals::Declined => listing_by::<false>(mode, image, marks, room),
    }
}

// The listing without a choice.
pub fn listing(mode: Mode, image: &[u8], marks: &[u8], room: &mut [u8]) -> Result<usize, ViewError>
    ensures result_value { viewed_of result ≡ listing_answer mode image.now marks.now unchosen room.old }
    ensures room_after { room.new ≡ listing_room mode image.now marks.now unchosen room.old }
{
    listing_with(mode, image, marks, Arrivals::DEFAULT, room)
}
