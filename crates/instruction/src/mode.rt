// Whether a short branch, and the end of memory, wrap at sixteen bits.

#[derive(Clone, Copy)]
pub enum Mode {
    // A short branch may leave memory: its target is the sum as it is.
    Unwrapped,
    // A short target, and next as a target, are taken modulo 65,536.
    Wrapping,
}
