// The tracer: start, step and run.
#![tactic(auto)]

mod begin;
mod damage;
mod queue;
pub mod run;
pub mod start;
pub mod step;

pub use run::{Counts, Ran, RunError};
pub use step::{Advance, StepError};
