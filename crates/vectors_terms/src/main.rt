// Replays a stored list of terms through `report_text`, whole, and through `take` and `close`, in blocks, and prints how many of them hold; then
// how many hold of the cases that no text reaches, with sums that are nearly full, and of those with rooms that are too short for a block.
// The list was made by `compare/run --terms SRC`; data/ABOUT describes its lines.
#![tactic(auto)]

mod blocks;
mod case;
mod full;
mod rooms;
mod short;

use std::io;

fn main(rt: HostRuntime) -> io::Result<()> {
    let mut room = rooms::given();
    let Some(list) = runner::read_file(&rt, "terms", &mut room)? else {
        return println!(rt; "terms: too long");
    };
    let mut given = rooms::given();
    let mut room = rooms::output();
    println!(rt; "terms: {}", case::replay(list, &mut given, &mut room))?;
    println!(rt; "sums: {}", full::replay())?;
    println!(rt; "rooms: {}", short::replay())
}
