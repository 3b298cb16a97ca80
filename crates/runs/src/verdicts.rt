// What a search knows of its targets.
#[derive(Clone, Copy, Debug, PartialEq, Eq)]
pub enum Verdict {
    // Runs are left to look at.
    More,
    // A run reaches them.
    Found,
    // No run does.
    None,
}

// What a work answers: how many runs it looked at, and what is known then.
#[derive(Clone, Copy, Debug, PartialEq, Eq)]
pub struct Worked {
    pub units: u32,
    pub verdict: Verdict,
}
