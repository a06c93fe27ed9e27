// A number that a word of the command line says.
ghost use Rattle.std.specs.Prelude.{◌≡◌};
ghost use Rattle.unlist_text.specs.Number.{argument_of};

// The number that a word of 1 to 9 decimal digits says; none is said by any other.
pub fn number(word: &[u8]) -> Option<usize>
    ensures { result ≡ argument_of word.now }
{
    if word.len() == 0 {
        return None;
    }
    if 9 < word.len() {
        return None;
    }
    let mut n: usize = 0;
    for b in word {
        if !b.is_ascii_digit() {
            return None;
        }
        n = n * 10 + (*b - b'0') as usize;
    }
    Some(n)
}
