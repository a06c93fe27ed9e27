// Arrivals at a position; and for all positions of an image, an index of those that name them, made by one pass over it.
#![tactic(auto)]

pub mod arrival;
pub mod fall;
mod held;
mod index_entry;
pub mod index_fill;
pub mod index_lookup;
mod named;
mod naming;
mod search;

pub use arrival::{arrivals, arrives};
pub use fall::next_fall;
pub use index_fill::index_into;
pub use index_lookup::{first, next};
