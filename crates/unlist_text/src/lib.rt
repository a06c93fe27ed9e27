// The work of the program that turns a listing back into the image lines of the listing program's input.
#![tactic(auto)]

mod line;
pub mod print;
mod rooms;
pub mod word;

pub use print::unlist_text;
pub use word::number;
