ghost use Rattle.std.specs.Prelude.{◌≡◌};
ghost use Rattle.memory.specs.Fences.{fenced, lowered};
ghost use Rattle.memory.specs.Fenced.{inside_lowered, leads_below, lowered_takes};
ghost use Rattle.memory.specs.Bytes;
ghost use Rattle.std.proofs.Common.{rules};

use super::actions::{Action, NotOffered, Seen};
use super::memories::Memory;
use super::shapes::Shape;

// Does fences over any memory, and stands where that memory stands: a fence is a swap of variable 0, which
// no program names, from 0 to 0.
#[derive(Drop)]
pub struct Fences<M> {
    pub below: M,
}

// The action that the memory below is asked for.
fn lower(action: Action) -> Action
    ensures { result ≡ lowered action }
{
    match action {
        Action::Fence => Action::Swap {
            variable: 0,
            old: 0,
            new: 0,
        },
        other => other,
    }
}

impl<M: Memory> Memory for Fences<M> {
    const WIDEST: usize = M::WIDEST;

    ghost WIDEST = { M.Memory.WIDEST };

    ghost Config = { M.Memory.Config };

    ghost machine = { fenced M.Memory.machine };

    ghost config = { λ s. M.Memory.config s.below };

    ghost bounded = { Prim.search rules };

    ghost some = { Prim.search rules };

    ghost few = { Prim.search rules };

    ghost outside = { λ shape ks s h p a out.
        M.Memory.outside shape (lowered_takes M.Memory.machine ks) s
        (leads_below M.Memory.machine (M.Memory.machine.initial shape) ks s h) p (lowered a)
        (λ i. out (inside_lowered shape p a i)) };

    ghost quiet = { Prim.search rules };

    ghost bytes = { Bytes.fences M.Memory.machine M.Memory.bytes };

    fn start(&mut self, shape: Shape) {
        self.below.start(shape);
    }

    fn offers(&self, process: u8, action: Action) -> usize {
        self.below.offers(process, lower(action))
    }

    fn take(&mut self, process: u8, action: Action, choice: usize) -> Result<Seen, NotOffered> {
        self.below.take(process, lower(action), choice)
    }
}
