// Why no whole instruction stands at a position.
use instruction::CutOff;

#[derive(Clone, Copy, Debug, PartialEq, Eq)]
pub enum NotWhole {
    // Cut off by the end.
    Cut(CutOff),
    // The position is not inside, or, where positions are asked for, the image is past its limit.
    Outside,
}
