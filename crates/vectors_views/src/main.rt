// Replays a stored list of views through the exported calls, and prints how many of its lines hold.
// The list was made by `compare/run --views SRC` over the original Rust's sources; data/ABOUT describes its lines.
#![tactic(auto)]

ghost use Rattle.std.specs.Prelude.{◌≡◌, length};

mod line;
mod rings;
mod view;

use runner::Tally;
use std::io;

// Room for more than the list has. What a short room would cut off is not passed over: see `main`.
const ROOM: usize = 100_000;

// The room has this length by contract, so that no slip in the number above is compiled.
fn room() -> [u8; ROOM]
    ensures { 100000 ≡ length result }
{
    runner::filled(0)
}

fn line_holds(text: &[u8]) -> bool {
    line::read(text).is_some_and(|line| view::holds(&line))
}

// How many lines hold: what is left of a last line counts as one that does not hold.
fn replay(list: &[u8]) -> Tally {
    let mut tally = Tally::default();
    for text in list.chunks(line::WIDTH) {
        tally.count(line_holds(text));
    }
    tally
}

fn main(rt: HostRuntime) -> io::Result<()> {
    let mut room = room();
    match runner::read_file(&rt, "views", &mut room)? {
        Some(list) => println!(rt; "views: {}", replay(list)),
        None => println!(rt; "views: too long"),
    }
}
