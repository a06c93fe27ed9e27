// The work of the program for game files: the words of its command line and the file's bytes to its whole output.
#![tactic(auto)]

mod arguments;
mod asked;
mod list;
mod message;
pub mod print;
mod rooms;
mod shown;
mod word;

pub use print::dis_text;
pub use shown::Shown;
