ghost use Rattle.std.specs.Prelude.{◌≡◌};
ghost use Rattle.machine.specs.Faults.{stage_number};

// How far a session has come.
#[derive(Clone, Copy, PartialEq, Eq, Debug)]
pub enum Stage {
    Draft,
    Certified,
    Open,
}

impl From<Stage> for u64 {
    ghost from_gives = { λ stage number. number ≡ stage_number stage };

    fn from(stage: Stage) -> u64 {
        match stage {
            Stage::Draft => 0,
            Stage::Certified => 1,
            Stage::Open => 2,
        }
    }
}
