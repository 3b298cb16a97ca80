// Programs over a memory, and how high a ceiling a question about their runs needs: what release-acquire memory
// reaches in n steps with timestamps of any size, it reaches under the ceiling n.

#![tactic(auto)]

mod moves;

ghost use Rattle.std.specs.Prelude.{◌≡◌};
ghost use Rattle.memory.specs.Shapes.{shape_by};
ghost use Rattle.ceiling.specs.Ceiling.{Enough};

use memory::Shape;
pub use moves::Move;

// The shape for runs of at most so many steps, whose ceiling loses none of them; or None where a number is
// outside its limits. Place is where a process of a program may stand.
pub fn shape_for<Place>(processes: u8, variables: u8, steps: u8) -> Option<Shape>
    ensures shaped { result ≡ shape_by processes variables steps }
    ensures enough { Enough Place steps result }
{
    Shape::new(processes, variables, steps)
}
