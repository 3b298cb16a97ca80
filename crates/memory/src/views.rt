ghost use Rattle.std.specs.Prelude.{◌≡◌, nat_lt};
ghost use Rattle.std.specs.List.{list_any, zip};
ghost use Rattle.memory.specs.Rules.{nought, join, raise, changes};
ghost use Rattle.memory.specs.MessageTable.{view_of};

use super::places::Access;
use super::shapes::Shape;
use std::array;

// A timestamp for each of the variables 0 to 4.
#[derive(Clone, Copy)]
pub(crate) struct View {
    pub(crate) times: [u8; 5],
}

// Whether an entry of the one is below that of the other, as far as both go.
fn is_below(mine: &[u8], theirs: &[u8]) -> bool
    ensures { result ≡ list_any (λ p. nat_lt p.0 p.1) (zip mine.now theirs.now) }
{
    mine.iter().zip(theirs).any(|(a, b)| *a < *b)
}

impl View {
    // The view at the start.
    pub(crate) fn nought() -> Self
        ensures { view_of result ≡ nought }
    {
        View { times: [0; 5] }
    }

    // This view, with another timestamp at the variable that is accessed.
    pub(crate) fn raised(mut self, access: Access, at: u8) -> Self
        ensures { view_of result ≡ raise (view_of self) access.variable at }
    {
        self.times[usize::from(access.variable)] = at;
        self
    }

    // The entrywise maximum of two views.
    pub(crate) fn joined(self, other: View) -> Self
        ensures { view_of result ≡ join (view_of self) (view_of other) }
    {
        View {
            times: array::from_fn(|variable| self.times[variable].max(other.times[variable])),
        }
    }

    // Whether joining the other changes this view at one of the variables of the shape.
    pub(crate) fn is_changed_by(self, other: View, shape: Shape) -> bool
        ensures { result ≡ changes shape.variables (view_of self) (view_of other) }
    {
        is_below(&self.times[..=usize::from(shape.variables)], &other.times)
    }
}
