// Why a line is refused: a record, as C holds it too, has the number.
#[derive(Clone, Copy, Debug, PartialEq, Eq)]
pub enum Fault {
    Malformed = 18,
    Untraced = 19,
    Forbidden = 20,
    Full = 21,
}
