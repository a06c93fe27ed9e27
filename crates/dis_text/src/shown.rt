// What is answered of an output.

#[derive(Clone, Copy, Debug, PartialEq, Eq)]
pub enum Shown {
    // A listing of so many bytes was written.
    Listing(usize),
    // A line of so many bytes was written, which says what is wrong.
    Message(usize),
}
