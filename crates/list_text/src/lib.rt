// The listing program's work: its whole input text to its whole output text.
#![tactic(auto)]

mod bytes;
pub mod decimal;
mod entries;
pub mod parsed;
pub mod print;
pub mod read;
pub mod refusal;
pub mod rooms;

pub use parsed::{Input, ParseError};
pub use print::list_text;
pub use read::parse;
