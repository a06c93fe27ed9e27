// Where control goes from a position of an image: the instruction there, and its targets.
// Ported from src/disasm.rs of wtetzner/waterbear (Apache-2.0, see NOTICE), and changed: targets are signed numbers.
#![tactic(auto)]

mod address;
pub mod asked;
pub mod here;
pub mod image;
pub mod instr_targets;
pub mod name;
pub mod not_whole;
mod opening;
mod operand;
pub mod place;
pub mod target;

pub use asked::operand_place;
pub use here::{instr_at, size_at};
pub use image::Image;
pub use instr_targets::targets;
pub use name::{is_naming, name_at};
pub use not_whole::NotWhole;
pub use place::{Places, falls_to, ways_at};
pub use target::{Targets, TargetsError};
