ghost use Rattle.std.specs.Prelude.{◌≡◌, ◌+◌, ◌%◌, ◌≤◌, true};
ghost use Rattle.worlds.specs.Places.{action_of, four, gone, given, moved, onward, register, registers_fit, shown};

use super::places::Place;
use memory::Action;
use program::Instruction;

// Where a process stands, the instruction there, and how many values there are.
#[derive(Clone, Copy)]
pub(crate) struct Standing {
    pub(crate) place: Place,
    pub(crate) instruction: Instruction,
    pub(crate) values: u8,
    ghost registers: { registers_fit instruction ≡ true },
    ghost low: { place.label ≤ 32 },
    ghost some: { 1 ≤ values },
}

impl Standing {
    fn register(self, r: u8) -> u8
        requires { four r ≡ true }
        ensures { result ≡ register self.place r }
    {
        self.place.registers[usize::from(r) - 1]
    }

    // The place with the label.
    fn at(self, label: u8) -> Place
        ensures { result ≡ gone self.place label }
    {
        let registers = self.place.registers;
        Place { label, registers }
    }

    // The next label, with the registers as they are.
    fn onward(self) -> Place
        ensures { result ≡ onward self.place }
    {
        self.at(self.place.label + 1)
    }

    // The next label, where a register has another value.
    fn given(self, r: u8, value: u8) -> Place
        requires { four r ≡ true }
        ensures { result ≡ given self.place r value }
    {
        let mut registers = self.place.registers;
        registers[usize::from(r) - 1] = value;
        Place {
            label: self.place.label + 1,
            registers,
        }
    }

    // The sum of two registers. It is below the number of values, so the cast keeps it.
    fn sum(self, left: u8, right: u8) -> u8
        requires left { four left ≡ true }
        requires right { four right ≡ true }
        ensures { result ≡ (register self.place left + register self.place right) % self.values }
    {
        let sum = u16::from(self.register(left)) + u16::from(self.register(right));
        (sum % u16::from(self.values)) as u8
    }

    // What the process asks of the memory, if it has a move here.
    pub(crate) fn action(self) -> Option<Action>
        ensures { result ≡ action_of self.instruction self.place }
    {
        match self.instruction {
            Instruction::Read { variable, .. } => Some(Action::Read { variable }),
            Instruction::Write { variable, register } => Some(Action::Write {
                variable,
                value: self.register(register),
            }),
            Instruction::Cas { variable, old, new } => Some(Action::Swap {
                variable,
                old: self.register(old),
                new: self.register(new),
            }),
            Instruction::Set { .. } | Instruction::Add { .. } | Instruction::Jeq { .. } => Some(
                Action::Local,
            ),
            Instruction::Assume { left, right } => {
                (self.register(left) == self.register(right)).then_some(Action::Local)
            }
            Instruction::Fence => Some(Action::Fence),
            Instruction::Term => None,
        }
    }

    // Where the process stands once it has seen a value.
    pub(crate) fn after(self, value: u8) -> Place
        ensures { result ≡ moved self.values self.instruction self.place value }
    {
        match self.instruction {
            Instruction::Read { register, .. } => self.given(register, value),
            Instruction::Set { register, constant } => self.given(register, constant),
            Instruction::Add {
                register,
                left,
                right,
            } => self.given(register, self.sum(left, right)),
            Instruction::Jeq { left, right, label }
                if self.register(left) == self.register(right) => { self.at(label) }
            Instruction::Jeq { .. }
            | Instruction::Write { .. }
            | Instruction::Cas { .. }
            | Instruction::Assume { .. }
            | Instruction::Fence => self.onward(),
            Instruction::Term => self.place,
        }
    }

    // What is told of the value seen.
    pub(crate) fn shown(self, value: u8) -> u8
        ensures { result ≡ shown self.instruction value }
    {
        match self.instruction {
            Instruction::Read { .. } | Instruction::Cas { .. } => value,
            _ => 0,
        }
    }
}
