ghost use Rattle.std.specs.Prelude.{◌≡◌, ◌+◌, ◌&&◌, not, true, nat_lt};
ghost use Rattle.memory.specs.Rules.{changes, reads, message as message_at};
ghost use Rattle.memory.specs.ReleaseAcquire.{held, holds, may_read, may_write, may_swap};
ghost use Rattle.memory.specs.MessageTable.{view_of, slot_of};
ghost use Rattle.memory.specs.Places.{store_at, slot_at, view_at};

use super::actions::Seen;
use super::messages::Message;
use super::places::Place;
use super::views::View;

// What a process sees in a message, and its view once it has read it.
#[derive(Clone, Copy)]
pub(crate) struct Reading {
    pub(crate) seen: Seen,
    pub(crate) view: View,
}

// What the rules ask of a place, and what is read there.
impl<'a> Place<'a> {
    // The message here.
    fn message(&self) -> Option<Message>
        ensures { slot_of result ≡ slot_at self.now }
    {
        self.memory.messages[usize::from(self.access.variable)][usize::from(self.at)]
    }

    // Whether there is one.
    fn has(&self) -> bool
        ensures { result ≡ held (slot_at self.now) }
    {
        self.message().is_some()
    }

    // Whether there is one of the value.
    fn holds(&self, value: u8) -> bool
        ensures { result ≡ holds (slot_at self.now) value }
    {
        self.message().is_some_and(|message| message.value == value)
    }

    // The process's view.
    pub(crate) fn view(&self) -> View
        ensures { view_of result ≡ view_at self.now }
    {
        self.memory.views[usize::from(self.access.process)]
    }

    // The timestamp of the variable in the process's view.
    fn entry(&self) -> u8
        ensures { result ≡ view_at self.now self.now.access.variable }
    {
        self.memory.views[usize::from(self.access.process)].times[usize::from(self.access.variable)]
    }

    // Whether the ceiling allows the next timestamp, and no message has it.
    fn is_next_free(&self) -> bool
        ensures { result ≡ (nat_lt self.now.at self.now.memory.now.shape.ceiling && not (held ((store_at self.now).pool self.now.access.variable (self.now.at + 1)))) }
    {
        self.at < self.memory.shape.ceiling && !self.memory.place(self.access, self.at + 1).has()
    }

    // Whether a read may take the message here.
    pub(crate) fn may_read(&self) -> bool
        ensures { result ≡ may_read (store_at self.now) self.now.access.process self.now.access.variable self.now.at }
    {
        self.has() && self.entry() <= self.at
    }

    // Whether a write may give its message this timestamp.
    pub(crate) fn may_write(&self) -> bool
        ensures { result ≡ may_write (store_at self.now) self.now.access.process self.now.access.variable self.now.at }
    {
        self.entry() < self.at && !self.has()
    }

    // Whether a swap may take the message here, and give its own the next timestamp.
    pub(crate) fn may_swap(&self, old: u8) -> bool
        ensures { result ≡ (nat_lt self.now.at self.now.memory.now.shape.ceiling && may_swap (store_at self.now) self.now.access.process self.now.access.variable old self.now.at) }
    {
        self.holds(old) && self.entry() <= self.at && self.is_next_free()
    }

    // What the process sees in the message here.
    pub(crate) fn reading(&self) -> Reading
        requires { held (slot_at self.now) ≡ true }
        ensures value { result.seen.value ≡ (message_at (store_at self.now) self.now.access.variable self.now.at).value }
        ensures view { view_of result.view ≡ reads (store_at self.now) self.now.access.process self.now.access.variable self.now.at }
        ensures switch { result.seen.switch ≡ changes self.now.memory.now.shape.variables (view_at self.now) (message_at (store_at self.now) self.now.access.variable self.now.at).view }
    {
        let old = self.view();
        match self.message() {
            Some(message) => Reading {
                seen: Seen {
                    value: message.value,
                    switch: old.is_changed_by(message.view, self.memory.shape),
                },
                view: old.joined(message.view),
            },
            None => unreachable(),
        }
    }
}
