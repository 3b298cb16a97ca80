ghost use Rattle.std.specs.Prelude.{◌≡◌};
ghost use Rattle.session.specs.Stages.{stage_number};

// How far a session is.
#[derive(Clone, Copy, Debug, PartialEq, Eq)]
pub enum Stage {
    // No table was read.
    New,
    // A table was read, and nothing is asked of it.
    Table,
    // The question is open.
    Open,
    // A run reaches the targets.
    Found,
    // No run does.
    None,
}

// How far a session is, and the steps of the found run, 0 without one.
#[derive(Clone, Copy, Debug, PartialEq, Eq)]
pub struct Standing {
    pub stage: Stage,
    pub steps: usize,
}

impl From<Stage> for u8 {
    ghost from_gives = { λ stage number. number ≡ stage_number stage };

    fn from(stage: Stage) -> u8 {
        match stage {
            Stage::New => 0,
            Stage::Table => 1,
            Stage::Open => 2,
            Stage::Found => 3,
            Stage::None => 4,
        }
    }
}
