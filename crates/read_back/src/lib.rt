// A listing read back: places and the order of lines, one line, and the whole listing.
#![tactic(auto)]

pub mod back;
mod laying;
mod line;
mod noted;
mod order;
pub mod place;
pub mod read;
mod turn;

pub use back::{RestoreError, read_back};
pub use place::{Place, Record};
pub use read::{ReadError, read_line};
