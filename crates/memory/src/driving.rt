ghost use Rattle.std.specs.Prelude.{◌≡◌};
ghost use Rattle.memory.specs.Machine.{Leads};

use super::actions::Take;
use super::memories::Memory;
use super::shapes::Shape;

// Starts a memory for a shape and gives it takes, one after another; a refused one leaves it where it was.
// Every memory of its kind that is given the same stands in the same configuration.
pub fn drive<M: Memory>(memory: &mut M, shape: Shape, takes: &[Take])
    ensures led { Leads M.machine (M.machine.initial shape) takes.now (M.config memory.new) }
    ensures one { (t : M.Config) → Leads M.machine (M.machine.initial shape) takes.now t → t ≡ M.config memory.new }
{
    memory.start(shape);
    for take in takes {
        let _ = memory.take(take.process, take.action, take.choice);
    }
}
