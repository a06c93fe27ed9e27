// Replays a stored list of listings through `list_text`, `dis_text`, `listing_with` and `listing`, and prints how many of them hold.
// The list was made by `compare/run --lists SRC`; data/ABOUT describes its lines.
#![tactic(auto)]

ghost use Rattle.std.specs.Prelude.{◌≡◌, length};

mod case;
mod listings;

use std::io;

// More than the list has, and more than any of its cases is given.
const SMALL: usize = 140_000;

// Two bytes more than any output: 77 for each of 65,536 positions, DisFits in crates/dis_text/specs.
const LARGE: usize = 5_046_274;

// The rooms have these lengths by contract, so that no slip in a number above is compiled.
fn small() -> [u8; SMALL]
    ensures { 140000 ≡ length result }
{
    runner::filled(0)
}

fn large() -> [u8; LARGE]
    ensures { 5046274 ≡ length result }
{
    runner::filled(0)
}

fn main(rt: HostRuntime) -> io::Result<()> {
    let mut room = small();
    let Some(list) = runner::read_file(&rt, "lists", &mut room)? else {
        return println!(rt; "listings: too long");
    };
    let mut given = small();
    let mut room = large();
    println!(rt; "listings: {}", case::replay(list, &mut given, &mut room))
}
