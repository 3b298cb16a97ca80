ghost use Rattle.std.specs.Prelude.{◌≤◌};

use ceiling::Move;

// The most steps that a question asks for, so the most moves of a run.
pub const MOST_STEPS: usize = 24;

// The moves of a run, of which there are so few that it is an array with a length, and can be copied.
#[derive(Clone, Copy)]
pub struct Run {
    pub(crate) moves: [Move; MOST_STEPS],
    pub(crate) len: usize,
    ghost few: { len ≤ 24 },
}
