// The entries of a list: a letter, and then the rest of its line.
ghost use Rattle.std.specs.Prelude.{◌≡◌, length, option_map};
ghost use Rattle.std.specs.Iterator.{at_most};
ghost use Rattle.runner.specs.Entries.{entry_of, after_entry};

// What is left of a list.
#[derive(Clone, Copy)]
pub struct Entries<'a>(pub &'a [u8]);

impl<'a> Iterator for Entries<'a> {
    type Item = (u8, &'a [u8]);

    ghost next_gives = { λ s r t. (option_map (λ e. (e.0, e.1.now)) r ≡ entry_of s.0.now) × (t.0.now ≡ after_entry s.0.now) };

    ghost remaining = { λ s. at_most (length s.0.now) };

    fn next(&mut self) -> Option<(u8, &'a [u8])> {
        let (letter, list) = self.0.split_first()?;
        let end = list.iter().position(|b| *b == b'\n').unwrap_or(list.len());
        let (rest, line_end) = list.split_at(end);
        self.0 = line_end.get(1..).unwrap_or(&[]);
        Some((*letter, rest))
    }
}
