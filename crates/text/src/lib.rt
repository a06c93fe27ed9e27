// Pieces of text: hex digits, bytes and numbers of four digits in hex, lines and fields.
#![tactic(auto)]

pub mod bytes;
pub mod cut;
pub mod four;
pub mod hex;
pub mod same;
