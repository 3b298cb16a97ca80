ghost use Rattle.std.specs.Prelude.{◌≡◌, ℕ, ◌≤◌, List};
ghost use Rattle.memory.specs.Machine.{Machine, Taken, Leads, Silent, InBytes, AllInBytes};
ghost use Rattle.memory.specs.Shapes.{Inside};
ghost use Rattle.memory.specs.declared.actions.Action.{Action};
ghost use Rattle.memory.specs.declared.actions.Take.{Take};
ghost use Rattle.memory.specs.declared.shapes.Shape.{Shape};

use super::actions::{Action, NotOffered, Seen};
use super::shapes::Shape;

// A memory means a configuration: where it starts for a shape, how many choices a process has for an
// action, and where each choice leads. Code over a memory is proved against this meaning alone.
// An action goes by value, as a parameter of its own, to every memory's offers and take: a rule of the project. The
// functions behind them take it as it comes.
pub trait Memory {
    // The widest offer. The check proves the constant equal to the ghost number, of which the laws speak.
    const WIDEST: usize;

    ghost WIDEST: { ℕ };

    ghost Config: { Type 0 };

    ghost machine: { Machine Config };

    // The configuration in which a memory stands.
    ghost config: { Self → Config };

    // Goes to the starting configuration of the shape.
    fn start(&mut self, shape: Shape)
        ensures { config self.new ≡ machine.initial shape };

    // How many choices the process has for the action.
    fn offers(&self, process: u8, action: Action) -> usize
        ensures value { result ≡ machine.offer (config self.now) process action };

    // Takes one of the choices, or refuses and remains.
    fn take(&mut self, process: u8, action: Action, choice: usize) -> Result<Seen, NotOffered>
        ensures outcome { Taken machine (config self.old) process action choice (config self.new) result };

    // No configuration offers more than the widest offer.
    ghost bounded: { (s : Config) (p : ℕ) (a : Action) → machine.offer s p a ≤ WIDEST };

    ghost some: { 1 ≤ WIDEST };

    ghost few: { WIDEST ≤ 9999 };

    // A process or a variable outside the shape is offered nothing, wherever takes have led from its start.
    ghost outside: { (shape : Shape) (ks : List Take) (s : Config) → Leads machine (machine.initial shape) ks s → (p : ℕ) (a : Action) → (Inside shape p a → ⊥) → machine.offer s p a ≡ 0 };

    // A Local or Write step sees 0.
    ghost quiet: { (s : Config) (p : ℕ) (a : Action) (c : ℕ) → Silent a → (machine.step s p a c).value ≡ 0 };

    // A step of an action whose values are 0 to 255 sees 0 to 255, wherever takes of such actions have led from the
    // start of a shape.
    ghost bytes: { (shape : Shape) (ks : List Take) (s : Config) → Leads machine (machine.initial shape) ks s → AllInBytes ks → (p : ℕ) (a : Action) (c : ℕ) → InBytes a → (machine.step s p a c).value ≤ 255 };
}
