// Marks: their values, their sizes judged, the exception that reads them, clearing them, positions noted in them, and one position taken up.
#![tactic(auto)]

pub mod exempt;
pub mod flash;
pub mod mark;
pub mod note;
pub mod pins;
pub mod sizes;
pub mod take;
pub mod wipe;

pub use exempt::is_exempt;
pub use flash::is_flash;
pub use mark::Mark;
pub use note::note_one;
pub use pins::pin;
pub use sizes::{SizeError, check_sizes};
pub use take::{Taken, note_place, take_up};
pub use wipe::clear;
