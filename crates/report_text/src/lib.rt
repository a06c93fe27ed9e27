// The term report's work: the texts of many images to a line for each, and the sums.
#![tactic(auto)]

mod copy;
mod count;
mod empty;
mod enough;
mod figures;
mod finish;
mod gather;
mod image;
mod line;
mod name;
mod sums;
pub mod term;
mod whole;

pub use figures::Figures;
pub use image::ImageError;
pub use sums::Sums;
pub use term::{Taken, Term};
pub use whole::report_text;
