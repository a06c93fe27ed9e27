// The lent order list as the queue of a run.
ghost use Rattle.std.specs.Prelude.{◌≡◌, ◌+◌, ◌≤◌, length};
ghost use Rattle.std.proofs.lemmas.List.Edits.{sets};
ghost use Rattle.reach.specs.Queue.{Noted};
ghost use Rattle.targets.specs.Ways.{places_in};

use targets::Places;

// Writes these positions at the list's end: its new end.
pub fn put(order: &mut [u32], tail: usize, ps: Places) -> usize
    requires { tail + length (places_in ps) ≤ length order.old }
    ensures value { result ≡ tail + length (places_in ps) }
    ensures order_after { order.new ≡ sets order.old tail (places_in ps) }
{
    match ps {
        Places::Nothing => tail,
        Places::First(s) => {
            order[tail] = s;
            tail + 1
        }
        Places::Both(s, t) => {
            order[tail] = s;
            order[tail + 1] = t;
            tail + 2
        }
    }
}

// Notes the entries, in their order, from the list's start: its end.
pub fn put_entries(marks: &mut [u8], order: &mut [u32], n: usize, entries: &[u32]) -> usize
    requires n_in_bounds { n ≤ length marks.old }
    requires n_in_bounds_2 { n ≤ length order.old }
    ensures { Noted n entries.now marks.old order.old 0 marks.new order.new result }
{
    let mut tail: usize = 0;
    for t in entries {
        let noted = marks::note_place(marks, n, *t);
        tail = put(order, tail, noted);
    }
    tail
}
