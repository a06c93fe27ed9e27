// A place in a listing, as the words that its caller keeps. No code is generic over a place and the record of a replay: they differ in how many
// words they have and in what fits a field.
ghost use Rattle.std.specs.Prelude.{◌≡◌};
ghost use Rattle.c_answers.specs.Places.{place_in, place_words};

use read_back::Place;

// Any words are a place: of a number that is too large for its kind, the lower bits count.
pub fn place_of(words: &[u64; 4]) -> Place
    ensures { result ≡ place_in words.now }
{
    let [at, line, last, letter] = *words;
    Place {
        at: at as usize,
        line: (line % 0x8000_0000_0000_0000) as usize,
        last: (last % 0x1_0000_0000) as u32,
        letter: (letter % 0x100) as u8,
    }
}

pub fn words_of(place: Place) -> [u64; 4]
    ensures { result ≡ place_words place }
{
    [
        place.at as u64,
        place.line as u64,
        place.last as u64,
        place.letter as u64,
    ]
}
