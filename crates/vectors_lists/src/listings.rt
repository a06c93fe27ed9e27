// The calls that make listings.
use dis_text::Shown;
use instruction::Mode;
use list_text::ParseError;
use listing::Arrivals;
use runner::call::{Call, CallError};
use views::ViewError;

// Which output a case is about.
#[derive(Clone, Copy, PartialEq, Eq)]
pub enum Output {
    // What the listing program prints.
    Text,
    // A listing without arrivals, with them and without a choice.
    Declined,
    Chosen,
    Listing,
    // The listing that `dis` prints, and the message.
    Shown,
    Message,
}

impl Output {
    // What the last letter of a case asks for.
    pub fn of(letter: u8) -> Option<Self> {
        match letter {
            b'=' => Some(Self::Text),
            b'-' => Some(Self::Declined),
            b'+' => Some(Self::Chosen),
            b'?' => Some(Self::Listing),
            b'd' => Some(Self::Shown),
            b'm' => Some(Self::Message),
            _ => None,
        }
    }
}

// What a call is given. The listing program has its own mode, and the words of the program for game files, which stand where marks do, say
// theirs.
#[derive(Clone, Copy)]
pub struct Listings<'a> {
    pub output: Output,
    pub mode: Mode,
    pub input: &'a [u8],
    pub marks: &'a [u8],
}

fn refused(error: ViewError) -> CallError {
    match error {
        ViewError::NoRoom(n) => CallError::NoRoom(n),
        _ => CallError::Other,
    }
}

// A listing and a message are told apart.
fn of_shown(output: Output, shown: Result<Shown, ViewError>) -> Result<usize, CallError> {
    match shown {
        Ok(Shown::Listing(n)) if output == Output::Shown => Ok(n),
        Ok(Shown::Message(n)) if output == Output::Message => Ok(n),
        Ok(_) => Err(CallError::Other),
        Err(e) => Err(refused(e)),
    }
}

impl Call for Listings<'_> {
    fn write(&self, room: &mut [u8]) -> Result<usize, CallError> {
        let mode = self.mode;
        let input = self.input;
        let marks = self.marks;
        match self.output {
            Output::Text => list_text::list_text(input, room).map_err(refused),
            Output::Declined => {
                listing::listing_with(mode, input, marks, Arrivals::Declined, room).map_err(refused)
            }
            Output::Chosen => {
                listing::listing_with(mode, input, marks, Arrivals::Chosen, room).map_err(refused)
            }
            Output::Listing => listing::listing(mode, input, marks, room).map_err(refused),
            Output::Shown | Output::Message => {
                of_shown(self.output, dis_text::dis_text(marks, input, room))
            }
        }
    }
}

impl Listings<'_> {
    // The first bad line of an input, or 0. It is told before any room is looked at.
    pub fn bad_line(&self) -> usize {
        if self.output != Output::Text {
            return 0;
        }
        match list_text::parse(self.input, &mut [0; 1], &mut [0; 1]) {
            Err(ParseError::Malformed(n)) => n,
            _ => 0,
        }
    }
}
