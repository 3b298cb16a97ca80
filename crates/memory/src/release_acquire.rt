ghost use Rattle.std.specs.Prelude.{◌≡◌, ◌≤◌, true, length};
ghost use Rattle.memory.specs.Machine.{Taken};
ghost use Rattle.memory.specs.ReleaseAcquire.{Config, initial, admitted, choices, step, machine};
ghost use Rattle.memory.specs.Choices.{Offers, Takes, AlwaysTimely};
ghost use Rattle.memory.specs.MessageTable.{view_of, config, turned, posted, Sought};
ghost use Rattle.memory.specs.Words;
ghost use Rattle.memory.specs.Bytes;
ghost use Rattle.std.proofs.Common.{rules};

use super::actions::{Action, NotOffered, Seen};
use super::memories::Memory;
use super::messages::{Message, first_messages};
use super::places::{Access, Place};
use super::shapes::Shape;
use super::views::View;

// The messages by variable and timestamp, and the view of each process; no process has view 0. Arrays, since
// a memory has no heap, and the limits of a shape bound them.
#[derive(Clone, Copy)]
pub struct ReleaseAcquire {
    pub(crate) shape: Shape,
    pub(crate) views: [View; 5],
    pub(crate) messages: [[Option<Message>; 25]; 5],
}

impl ReleaseAcquire {
    pub fn new(shape: Shape) -> Self
        ensures start { config result ≡ initial shape }
        ensures always { AlwaysTimely }
    {
        ReleaseAcquire {
            shape,
            views: [View::nought(); 5],
            messages: first_messages(shape),
        }
    }

    // The place of an access at a timestamp. The bound on the timestamp stands here and below in `requires`, since
    // no place can carry it there: Local and Fence name no variable, and while there is a place the memory cannot
    // change.
    pub(crate) fn place(&self, access: Access, at: u8) -> Place<'_>
        requires { at ≤ self.now.shape.ceiling }
        ensures memory { result.memory.now ≡ self.now }
        ensures access { result.access ≡ access }
        ensures at { result.at ≡ at }
    {
        Place {
            memory: self,
            access,
            at,
        }
    }

    // Whether the process may take the timestamp for the action.
    fn admits(&self, process: u8, action: Action, at: u8) -> bool
        requires { at ≤ self.now.shape.ceiling }
        ensures { result ≡ admitted (config self.now) process action at }
    {
        if !self.shape.has_process(process) {
            return false;
        }
        match action {
            Action::Local => at == 0,
            Action::Read { variable } => {
                self.shape.has_variable(variable)
                    && self.place(Access { process, variable }, at).may_read()
            }
            Action::Write { variable, .. } => {
                self.shape.has_variable(variable)
                    && self.place(Access { process, variable }, at).may_write()
            }
            Action::Swap { variable, old, .. } => {
                self.shape.has_variable(variable)
                    && self.place(Access { process, variable }, at).may_swap(old)
            }
            Action::Fence => false,
        }
    }

    // The timestamp of a choice, or how many choices there are: one walk that counts them on the way.
    fn seek(&self, process: u8, action: Action, choice: usize) -> Result<u8, NotOffered>
        ensures { Sought (config self.now) process action choice result }
    {
        let mut passed = 0;
        for time in 0..=self.shape.ceiling {
            if self.admits(process, action, time) {
                if passed == choice {
                    return Ok(time);
                }
                passed += 1;
            }
        }
        Err(NotOffered { offered: passed })
    }

    // The process goes on to a view.
    fn advance(&mut self, access: Access, view: View)
        ensures { config self.new ≡ turned (config self.old) access.process (view_of view) }
    {
        self.views[usize::from(access.process)] = view;
    }

    // The process goes on to the view of a message, which is added.
    fn post(&mut self, access: Access, at: u8, message: Message)
        requires { at ≤ self.old.shape.ceiling }
        ensures { config self.new ≡ posted (config self.old) access.process access.variable at message.value (view_of message.view) }
    {
        self.views[usize::from(access.process)] = message.view;
        self.messages[usize::from(access.variable)][usize::from(at)] = Some(message);
    }

    // One step of the process by the rules, at a timestamp that it may take.
    fn perform(&mut self, process: u8, action: Action, at: u8) -> Seen
        requires { (at ≤ self.old.shape.ceiling) × (admitted (config self.old) process action at ≡ true) }
        ensures next { config self.new ≡ (step (config self.old) process action at).next }
        ensures value { result.value ≡ (step (config self.old) process action at).value }
        ensures mark { result.switch ≡ (step (config self.old) process action at).mark }
    {
        match action {
            Action::Read { variable } => {
                let access = Access { process, variable };
                let read = self.place(access, at).reading();
                self.advance(access, read.view);
                read.seen
            }
            Action::Write { variable, value } => {
                let access = Access { process, variable };
                let view = self.place(access, at).view().raised(access, at);
                self.post(access, at, Message { value, view });
                Seen::default()
            }
            Action::Swap { variable, new, .. } => {
                let access = Access { process, variable };
                let taken = self.place(access, at).reading();
                let view = taken.view.raised(access, at + 1);
                self.post(access, at + 1, Message { value: new, view });
                taken.seen
            }
            Action::Local | Action::Fence => Seen::default(),
        }
    }
}

impl Memory for ReleaseAcquire {
    const WIDEST: usize = 25;

    ghost WIDEST = { 25 };

    ghost Config = { Config };

    ghost machine = { machine };

    ghost config = { config };

    ghost bounded = { Words.at_most };

    ghost some = { Prim.search rules };

    ghost few = { Prim.search rules };

    ghost outside = { Words.outside };

    ghost quiet = { Prim.search rules };

    ghost bytes = { Bytes.release_acquire };

    // Written in each memory: the trait can't have it, since a layer has no `new`.
    fn start(&mut self, shape: Shape) {
        *self = ReleaseAcquire::new(shape);
    }

    fn offers(&self, process: u8, action: Action) -> usize
        ensures value { result ≡ length (choices (config self.now) process action) }
        ensures words { Offers (config self.now) process action result }
    {
        // A filter and a count over the range prove too, and took half as long again.
        let mut count = 0;
        for at in 0..=self.shape.ceiling {
            count += usize::from(self.admits(process, action, at));
        }
        count
    }

    fn take(&mut self, process: u8, action: Action, choice: usize) -> Result<Seen, NotOffered>
        ensures outcome { Taken machine (config self.old) process action choice (config self.new) result }
        ensures words { Takes (config self.old) process action choice (config self.new) result }
    {
        let at = self.seek(process, action, choice)?;
        Ok(self.perform(process, action, at))
    }
}
