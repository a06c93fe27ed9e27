// A log from the unit replayed over marks: a line for each executed instruction, taken whole or in blocks that are cut at any byte.
#![tactic(auto)]

pub mod answer;
pub mod block;
mod entry;
mod fault;
mod feed;
mod ground;
mod keep;
mod line;
pub mod log;
mod moves;
mod next;
mod take;
pub mod whole;

pub use answer::{ReplayError, Totals};
pub use block::{Fed, take_block};
pub use log::Log;
pub use whole::replay;
