ghost use Rattle.std.specs.Prelude.{◌≡◌, ◌+◌, ◌^◌, ◌<◌, ◌≤◌};
ghost use Rattle.steps.specs.Outcomes.{tallied};
ghost use Rattle.steps.specs.declared.outcomes.Stop.TheVariants.{Wrong as Misread};

use super::wrongs::Wrong;
use memory::{Seen, Take};

// A line that was performed.
#[derive(Clone, Copy)]
pub struct Done {
    pub take: Take,
    pub offered: usize,
    pub seen: Seen,
}

// Why a line was not performed.
#[derive(Clone, Copy)]
pub enum Stop {
    Refused { take: Take, offered: usize },
    Wrong(Wrong),
}

impl From<Wrong> for Stop {
    ghost from_gives = { λ w s. s ≡ Misread w };

    fn from(wrong: Wrong) -> Stop {
        Stop::Wrong(wrong)
    }
}

// How many actions were performed, and how many of them were switches.
#[derive(Clone, Copy, Default)]
pub struct Tally {
    pub performed: usize,
    pub switches: usize,
}

impl Tally {
    // The numbers after one action more. That the switches are the fewer is asked here and is no ghost field,
    // since then each tally that the definitions of specs/ write would have to carry a proof of it.
    pub(crate) fn with(self, done: Done) -> Tally
        requires { (self.performed + 1 < 2 ^ 64) × (self.switches ≤ self.performed) }
        ensures value { result ≡ tallied self done }
        ensures few { (result.switches ≤ result.performed) × (result.performed ≡ self.performed + 1) }
    {
        Tally {
            performed: self.performed + 1,
            switches: self.switches + usize::from(done.seen.switch),
        }
    }
}
