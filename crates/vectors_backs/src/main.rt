// Replays a stored list of listings through `read_back`, and prints how many of its cases hold.
// The list was made by `compare/run --backs SRC`; data/ABOUT describes its lines.
#![tactic(auto)]

ghost use Rattle.std.specs.Prelude.{◌≡◌, length};

mod answers;
mod case;

use std::io;

// More than the list has, and more than any of its texts.
const LIST: usize = 100_000;

// The image that is wanted, and then the marks.
const WANTED: usize = 140_000;

// The rooms have these lengths by contract, so that no slip in a number above is compiled.
fn list_room() -> [u8; LIST]
    ensures { 100000 ≡ length result }
{
    runner::filled(0)
}

fn wanted_room() -> [u8; WANTED]
    ensures { 140000 ≡ length result }
{
    runner::filled(0)
}

fn main(rt: HostRuntime) -> io::Result<()> {
    let mut room = list_room();
    let Some(list) = runner::read_file(&rt, "backs", &mut room)? else {
        return println!(rt; "readings back: too long");
    };
    let mut text = list_room();
    let mut wanted = wanted_room();
    println!(rt;
        "readings back: {}",
        case::replay(list, &mut text, &mut wanted)
    )
}
