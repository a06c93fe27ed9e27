// The instructions of the LC86K: kinds of operands and the numbers that fit them, where the bits of operands stand in the bytes, the 70
// forms, decode, encode and the resolving of operands, and what a first byte alone says.
// Ported from src/instruction.rs of wtetzner/waterbear (Apache-2.0, see NOTICE), and changed: an instruction holds numbers alone, the
// derived functions are a lookup by row and column and fields written out, the bits go by shapes where the Rust has a pattern for each form, and every
// answer is an enum.
#![tactic(auto)]

pub mod answer;
mod build;
pub mod decode;
pub mod encode;
pub mod first;
pub mod flow;
mod form;
pub mod instr;
pub mod kind;
mod layout;
pub mod mnemonic;
pub mod mode;
mod range;
mod read;
pub mod resolve;
mod resolve_operand;
mod signed;
mod tables;
mod write;

pub use answer::{CutOff, Misfit, Tops};
pub use decode::DecodeError;
pub use encode::EncodeError;
pub use first::FirstByte;
pub use flow::Flow;
pub use instr::{Instr, Parts};
pub use kind::{Kind, Kinds, Shape};
pub use mode::Mode;
pub use resolve_operand::{OperandError, ResolveError};
