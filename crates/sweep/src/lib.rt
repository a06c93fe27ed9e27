// A second engine, plain: the marks are swept upward until a sweep takes none.
#![tactic(auto)]

pub mod sweep;
mod way;

pub use sweep::Tally;
