ghost use Rattle.std.specs.Prelude.{◌≡◌, ◌<◌, [], ◌∷◌, ◌++◌, length, IfSome, IfNone};
ghost use Rattle.runs.specs.Paths.{path};

use super::paths::{MOST_STEPS, Run};
use ceiling::Move;

impl Run {
    // The run of no moves.
    pub(crate) fn empty() -> Run
        ensures { path result ≡ [] }
    {
        Run {
            moves: [Move {
                process: 0,
                choice: 0,
            }; MOST_STEPS],
            len: 0,
        }
    }

    pub fn moves(&self) -> &[Move]
        ensures { result.now ≡ path self.now }
    {
        &self.moves[..self.len]
    }

    pub(crate) fn push(&mut self, last: Move)
        requires { length (path self.old) < 24 }
        ensures { path self.new ≡ path self.old ++ (last ∷ []) }
    {
        self.moves[self.len] = last;
        self.len += 1;
    }

    // Takes off the last move, and answers it.
    pub(crate) fn pop(&mut self) -> Option<Move>
        ensures some { IfSome result (λ last. path self.old ≡ path self.new ++ (last ∷ [])) }
        ensures none { IfNone result ((path self.old ≡ []) × (path self.new ≡ [])) }
    {
        self.len = self.len.checked_sub(1)?;
        Some(self.moves[self.len])
    }
}
