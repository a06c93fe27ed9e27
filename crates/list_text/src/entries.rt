// The line of entries.
ghost use Rattle.std.specs.Prelude.{◌≡◌, ◌≤◌, length};
ghost use Rattle.std.proofs.lemmas.List.Edits.{sets};
ghost use Rattle.text.specs.Cut.{fields};
ghost use Rattle.list_text.specs.Entries.{entries_in, entries_line};

use crate::parsed::Input;
use text::{cut, four};

// Of how many entries a line is, if it is one of entries.
pub fn judge(line: &[u8]) -> Option<usize>
    ensures { result ≡ entries_line line.now }
{
    if line.len() == 0 {
        return Some(0);
    }
    let mut at: usize = 0;
    for n in 0..Input::MOST_ENTRIES {
        let e = cut::end(line, at, cut::TAB);
        if !four::is_four(&line[at..e]) {
            return None;
        }
        if e == line.len() {
            return Some(n + 1);
        }
        at = e + 1;
    }
    None
}

// Writes the entries of a line.
pub fn write(line: &[u8], room: &mut [u32])
    requires { length (fields line.now) ≤ length room.old }
    ensures { room.new ≡ sets room.old 0 (entries_in line.now) }
{
    if line.len() == 0 {
        return;
    }
    let mut at: usize = 0;
    for entry in room.iter_mut() {
        let e = cut::end(line, at, cut::TAB);
        *entry = four::four_of(&line[at..e]);
        if e == line.len() {
            return;
        }
        at = e + 1;
    }
}
