ghost use Rattle.std.specs.Prelude.{◌≡◌, true};
ghost use Rattle.memory.specs.Machine.{Taken};
ghost use Rattle.memory.specs.Sequential.{Config, initial, allowed, offer, written, seen, machine as sequential};
ghost use Rattle.memory.specs.SequentialState.{values_of, config};
ghost use Rattle.memory.specs.SequentialWords.{Offers, Takes};
ghost use Rattle.memory.specs.Sequenced;
ghost use Rattle.memory.specs.Bytes;
ghost use Rattle.std.proofs.Common.{rules};

use super::actions::{Action, NotOffered, Seen};
use super::memories::Memory;
use super::shapes::Shape;

// One value for each variable, 0 to 4, in an array, since a memory has no heap.
#[derive(Clone, Copy)]
pub struct Sequential {
    shape: Shape,
    values: [u8; 5],
    // The process of the step before, if there was one.
    last: Option<u8>,
}

impl Sequential {
    pub fn new(shape: Shape) -> Self
        ensures { config result ≡ initial shape }
    {
        Sequential {
            shape,
            values: [0; 5],
            last: None,
        }
    }

    // Whether the rule for the action lets it happen now.
    fn allows(&self, action: Action) -> bool
        ensures { result ≡ allowed (config self.now) action }
    {
        match action {
            Action::Local => true,
            Action::Read { variable } | Action::Write { variable, .. } => self
                .shape
                .has_variable(variable),
            Action::Swap { variable, old, .. } => {
                self.shape.has_variable(variable) && self.values[usize::from(variable)] == old
            }
            Action::Fence => false,
        }
    }

    // The change of the values, and the value seen.
    fn perform(&mut self, action: Action) -> u8
        requires { allowed (config self.old) action ≡ true }
        ensures value { result ≡ seen (config self.old) action }
        ensures values { values_of self.new.values ≡ written (config self.old) action }
        ensures shape { self.new.shape ≡ self.old.shape }
        ensures last { self.new.last ≡ self.old.last }
    {
        match action {
            Action::Read { variable } => self.values[usize::from(variable)],
            Action::Write { variable, value } => {
                self.values[usize::from(variable)] = value;
                0
            }
            Action::Swap { variable, old, new } => {
                self.values[usize::from(variable)] = new;
                old
            }
            Action::Local | Action::Fence => 0,
        }
    }
}

impl Memory for Sequential {
    const WIDEST: usize = 1;

    ghost WIDEST = { 1 };

    ghost Config = { Config };

    ghost machine = { sequential };

    ghost config = { config };

    ghost bounded = { Prim.search rules };

    ghost some = { Prim.search rules };

    ghost few = { Prim.search rules };

    ghost outside = { Sequenced.outside };

    ghost quiet = { Prim.search rules };

    ghost bytes = { Bytes.sequential };

    // Written in each memory: the trait can't have it, since a layer has no `new`.
    fn start(&mut self, shape: Shape) {
        *self = Sequential::new(shape);
    }

    fn offers(&self, process: u8, action: Action) -> usize
        ensures value { result ≡ offer (config self.now) process action }
        ensures words { Offers (config self.now) process action result }
    {
        usize::from(self.shape.has_process(process) && self.allows(action))
    }

    fn take(&mut self, process: u8, action: Action, choice: usize) -> Result<Seen, NotOffered>
        ensures outcome { Taken sequential (config self.old) process action choice (config self.new) result }
        ensures words { Takes (config self.old) process action choice (config self.new) result }
    {
        let offered = self.offers(process, action);
        if choice >= offered {
            return Err(NotOffered { offered });
        }
        let value = self.perform(action);
        let switch = self.last.is_some_and(|last| last != process);
        self.last = Some(process);
        Ok(Seen { value, switch })
    }
}
