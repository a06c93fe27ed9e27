// The listing: what stands at each position of an image, as tabbed text.
#![tactic(auto)]

mod chain;
pub mod code;
pub mod hex;
mod lines;
mod operands;
mod pieces;
pub mod put;
mod rooms;
pub mod tabbed;
mod walk;

pub use code::{code_line, code_rest};
pub use hex::hex1;
pub use tabbed::{Arrivals, listing, listing_declined, listing_with};
