// The packed map, one bit for each image byte: a word and its bits, building the map, keeping it up, and asking it.
#![tactic(auto)]

pub mod ask;
pub mod bits;
pub mod build;
mod cover;
mod find;
mod tell;
pub mod update;

pub use ask::{AskError, count, first_data, test};
pub use build::build_map;
pub use update::{UpdateError, update_map};
