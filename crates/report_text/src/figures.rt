// The figures of one image.

#[derive(Clone, Copy, Debug, PartialEq, Eq)]
pub struct Figures {
    pub length: u64,
    pub steps: u64,
    // The bytes that are code, and those that are data.
    pub code: u64,
    pub plain: u64,
    // The bytes under more than one traced instruction.
    pub shared: u64,
    // The target marks.
    pub targets: u64,
}
