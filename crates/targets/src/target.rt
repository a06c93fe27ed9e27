// What is answered of the targets of an instruction.
ghost use Rattle.std.specs.Prelude.{◌≡◌};
ghost use Rattle.targets.specs.declared.target.TargetsError.TheVariants.{Unfit};

use instruction::Misfit;

#[derive(Clone, Copy, Debug, PartialEq, Eq)]
pub enum Targets {
    Nowhere,
    One(i32),
    Two(i32, i32),
}

#[derive(Clone, Copy, Debug, PartialEq, Eq)]
pub enum TargetsError {
    // 14: next, which is past 65,536.
    PastEnd(u64),
    // 7: a field out of encode's range.
    Unfit(Misfit),
}

impl From<Misfit> for TargetsError {
    ghost from_gives = { λ m e. e ≡ Unfit m };

    fn from(m: Misfit) -> TargetsError {
        TargetsError::Unfit(m)
    }
}
