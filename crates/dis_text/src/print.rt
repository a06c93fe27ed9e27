// What `dis` prints.
ghost use Rattle.std.specs.Prelude.{◌≡◌, [], length};
ghost use Rattle.instruction.specs.Answer.{accepted};
ghost use Rattle.views.specs.View.{room_after};
ghost use Rattle.dis_text.specs.Held.{held, Counted};
ghost use Rattle.dis_text.specs.Output.{game_entries, listed_for, dis_of, printed, shown_of, shown_answer};

use crate::asked::Asked;
use crate::shown::Shown;
use crate::{arguments, list, message, rooms};
use views::ViewError;

// The entries that the original's command takes for a game.
fn game_entries() -> [u32; 12]
    ensures { result ≡ game_entries }
{
    [
        0x0000, 0x0003, 0x000B, 0x0013, 0x001B, 0x0023, 0x002B, 0x0033, 0x003B, 0x0043, 0x004B,
        0x0130,
    ]
}

// What is asked, with the entries and pins of these rooms.
fn list_asked(
    asked: Asked,
    image: &[u8],
    entries: &[u32],
    pins: &[u32],
    room: &mut [u8],
) -> Result<Shown, ViewError>
    requires { (length entries.now ≡ 256) × (length pins.now ≡ 256) × Counted asked }
    ensures result_value { shown_of result ≡ shown_answer (listed_for (accepted (held asked entries.now pins.now)) image.now) room.old }
    ensures room_after { room.new
        ≡ room_after [] (printed (listed_for (accepted (held asked entries.now pins.now)) image.now)) room.old }
{
    let mode = asked.mode;
    let arrivals = asked.arrivals;
    let k = asked.entries;
    let j = asked.pins;
    if k == 0 {
        let game = game_entries();
        return list::list_image(mode, image, &game, &pins[..j], arrivals, room);
    }
    list::list_image(mode, image, &entries[..k], &pins[..j], arrivals, room)
}

// The whole output for these words, each ended by byte 0, and these bytes of a file: a listing or a message, and how many bytes were written;
// or 11 with how many are needed.
pub fn dis_text(words: &[u8], image: &[u8], room: &mut [u8]) -> Result<Shown, ViewError>
    ensures result_value { shown_of result ≡ shown_answer (dis_of words.now image.now) room.old }
    ensures room_after { room.new ≡ room_after [] (printed (dis_of words.now image.now)) room.old }
{
    let mut entries = rooms::numbers();
    let mut pins = rooms::numbers();
    match arguments::ask(words, &mut entries, &mut pins) {
        Ok(asked) => list_asked(asked, image, &entries, &pins, room),
        Err(e) => message::tell(e, room),
    }
}
