// Replays a stored list of logs through `replay`, whole and in blocks, and prints how many of its cases hold.
// The list was made by `compare/run --logs SRC`; data/ABOUT describes its lines.
#![tactic(auto)]

ghost use Rattle.std.specs.Prelude.{◌≡◌, length};

mod case;
mod log;
mod number;

use case::List;
use std::io;

// More than the list has.
const LIST: usize = 100_000;

// More than any of its logs.
const TEXT: usize = 1_000;

// The image, and then the marks.
const GIVEN: usize = 140_000;

const ENTRIES: usize = 100;

// The rooms have these lengths by contract, so that no slip in a number above is compiled.
fn list_room() -> [u8; LIST]
    ensures { 100000 ≡ length result }
{
    runner::filled(0)
}

fn text_room() -> [u8; TEXT]
    ensures { 1000 ≡ length result }
{
    runner::filled(0)
}

fn given_room() -> [u8; GIVEN]
    ensures { 140000 ≡ length result }
{
    runner::filled(0)
}

fn entries_room() -> [u32; ENTRIES]
    ensures { 100 ≡ length result }
{
    runner::filled(0)
}

// The counts before, or those that are wanted.
fn counts_room() -> [u64; case::HALF]
    ensures { 70000 ≡ length result }
{
    runner::filled(case::OLD)
}

fn main(rt: HostRuntime) -> io::Result<()> {
    let mut room = list_room();
    let Some(list) = runner::read_file(&rt, "logs", &mut room)? else {
        return println!(rt; "logs: too long");
    };
    let mut text = text_room();
    let mut given = given_room();
    let mut entries = entries_room();
    let mut before = counts_room();
    let mut after = counts_room();
    let mut cases = List::new(&mut text, &mut given, &mut entries, &mut before, &mut after);
    println!(rt; "logs: {}", case::replay(list, &mut cases))
}
