// A reader: it holds the lent text of a listing, and the place of the line that is next. `read_back::read::read_line` does the work, and
// `read` has plain parameters.
#![tactic(auto)]

ghost use Rattle.std.specs.Prelude.{◌≡◌};
ghost use Rattle.read_back.specs.Read.{read_of, read_answer};

use instruction::Mode;
use read_back::read::{ReadError, read_line};
use read_back::{Place, Record};

#[derive(Clone, Copy)]
pub struct Reader<'a> {
    pub text: &'a [u8],
    pub place: Place,
}

// A reader of the text, at the place.
pub fn new<'a>(text: &'a [u8], place: Place) -> Reader<'a>
    ensures { (result.text ≡ text.entry) × (result.place ≡ place) }
{
    Reader { text, place }
}

// What the line at the place says. The reader stays where it is: the answer has the place after the line, and `moved` goes there.
pub fn next<'a>(mode: Mode, r: Reader<'a>) -> Result<Option<(Record, Place)>, ReadError>
    ensures { read_of result ≡ read_answer mode r.entry.text.now r.entry.place }
{
    read_line(mode, r.text, r.place)
}

// The place where it stands.
pub fn place<'a>(r: Reader<'a>) -> Place
    ensures { result ≡ r.entry.place }
{
    r.place
}

// The same text, at another place.
pub fn moved<'a>(r: Reader<'a>, place: Place) -> Reader<'a>
    ensures { (result.text ≡ r.entry.text) × (result.place ≡ place) }
{
    Reader {
        text: r.text,
        place,
    }
}

// A reader of the text at the place is made, and read.
pub fn read(mode: Mode, text: &[u8], place: Place) -> Result<Option<(Record, Place)>, ReadError>
    ensures { read_of result ≡ read_answer mode text.now place }
{
    next(mode, new(text, place))
}
