// What the programs share: a file or a stream read into a room of fixed length, and, for those that replay a stored list, its entries and
// how many of them hold. Two calls besides, by what is handed over, are for callers elsewhere (`handed`).
#![tactic(auto)]

pub mod call;
pub mod digits;
pub mod entries;
pub mod handed;
mod input;
pub mod ring;
mod room;
pub mod sum;
mod tally;

pub use digits::{Numeral, decimal_digit, hex_digit, number_by};
pub use entries::Entries;
pub use handed::{number, put};
pub use input::{read_file, read_full};
pub use room::{copy, filled, put_hex};
pub use sum::checksum;
pub use tally::Tally;
