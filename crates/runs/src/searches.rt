ghost use Rattle.std.specs.Prelude.{◌≤◌, length};
ghost use Rattle.runs.specs.Paths.{path};

use super::paths::Run;
use super::questions::Question;
use super::verdicts::Verdict;

// A search for a question's targets: what it knows, and the run where it stands in the list, which is the next one to
// look at or the one that it found.
#[derive(Clone, Copy)]
pub struct Search {
    pub question: Question,
    pub verdict: Verdict,
    pub run: Run,
    ghost within: { length (path run) ≤ question.steps },
}
