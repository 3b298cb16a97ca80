// Making a session.

ghost use Rattle.std.specs.Prelude.{[]};
ghost use Rattle.ceiling.specs.Ceiling.{memory as weak};
ghost use Rattle.memory.specs.Fences.{fenced};
ghost use Rattle.memory.specs.Sequential as sequential;
ghost use Rattle.session.specs.Contents.{content};
ghost use Rattle.session.specs.Free.{Freed};
ghost use Rattle.session.specs.Law.{After};

use super::sessions::Session;
use memory::{Fences, Memory, ReleaseAcquire, Sequential, Shape};
use program::Table;
use runs::Cursor;

impl<M: Memory + Drop> Session<M> {
    // A new session over a memory as it is. It is not for callers: over a memory that does no fences every process would
    // wait at its first fence for ever, and an answer of none would be untrue.
    fn over(memory: M) -> Session<M>
        ensures { After M.machine [] (content result) }
    {
        Session {
            table: Table::empty(),
            cursor: Cursor::over(memory),
            search: None,
        }
    }
}

impl<M: Memory + Drop> Session<Fences<M>> {
    // A new session over the fence layer on a memory.
    pub fn new(below: M) -> Session<Fences<M>>
        ensures { After (fenced M.machine) [] (content result) }
    {
        Session::over(Fences { below })
    }
}

// The least shape, for a memory that is to be started in the shape of each question.
fn least() -> Shape {
    match Shape::new(1, 1, 0) {
        Some(shape) => shape,
        None => unreachable(),
    }
}

// A new session over sequential memory.
pub fn sequential() -> Session<Fences<Sequential>>
    ensures { After (fenced sequential.machine) [] (content result) }
{
    Session::new(Sequential::new(least()))
}

// A new session over release-acquire memory. What it answers once it is settled holds for runs with timestamps of any
// size, after every series of calls.
pub fn release_acquire() -> Session<Fences<ReleaseAcquire>>
    ensures new { After weak [] (content result) }
    ensures free { Freed (content result) }
{
    Session::new(ReleaseAcquire::new(least()))
}
