ghost use Rattle.std.specs.Prelude.{◌≡◌, cond, slice_index};
ghost use Rattle.program.specs.Program.{within, is_register, is_variable, is_constant};
ghost use Rattle.program.specs.Reading.{instruction_of};

use super::rows::{Counts, Instruction};

// What the operands of a row may name: so many registers, variables and values, and the labels of
// the row's own process.
#[derive(Clone, Copy)]
pub(crate) struct Scope {
    pub(crate) counts: Counts,
    pub(crate) labels: u8,
}

// A number that counts from 1 up to a limit. An `if` and a cast, as in the constant below: behind the test it is
// proved that nothing is lost, while `then` takes a closure that knows of no test.
fn counted(limit: u8, n: u16) -> Option<u8>
    ensures { result ≡ cond (within 1 limit n) (Some n) None }
{
    if (1..=u16::from(limit)).contains(&n) {
        Some(n as u8)
    } else {
        None
    }
}

impl Scope {
    fn register(self, n: u16) -> Option<u8>
        ensures { result ≡ cond (is_register self.counts n) (Some n) None }
    {
        counted(self.counts.registers, n)
    }

    fn variable(self, n: u16) -> Option<u8>
        ensures { result ≡ cond (is_variable self.counts n) (Some n) None }
    {
        counted(self.counts.variables, n)
    }

    fn label(self, n: u16) -> Option<u8>
        ensures { result ≡ cond (within 1 self.labels n) (Some n) None }
    {
        counted(self.labels, n)
    }

    fn constant(self, n: u16) -> Option<u8>
        ensures { result ≡ cond (is_constant self.counts n) (Some n) None }
    {
        if n < u16::from(self.counts.values) {
            Some(n as u8)
        } else {
            None
        }
    }

    // The instruction of a number and three operands.
    pub(crate) fn instruction(self, numbers: [u16; 4]) -> Option<Instruction>
        ensures { result ≡ instruction_of self.counts self.labels (slice_index numbers 0) (slice_index numbers 1) (slice_index numbers 2) (slice_index numbers 3) }
    {
        Some(match numbers {
            [1, a, b, 0] => Instruction::Read {
                register: self.register(a)?,
                variable: self.variable(b)?,
            },
            [2, a, b, 0] => Instruction::Write {
                variable: self.variable(a)?,
                register: self.register(b)?,
            },
            [3, a, b, c] => Instruction::Cas {
                variable: self.variable(a)?,
                old: self.register(b)?,
                new: self.register(c)?,
            },
            [4, a, b, 0] => Instruction::Set {
                register: self.register(a)?,
                constant: self.constant(b)?,
            },
            [5, a, b, c] => Instruction::Add {
                register: self.register(a)?,
                left: self.register(b)?,
                right: self.register(c)?,
            },
            [6, a, b, c] => Instruction::Jeq {
                left: self.register(a)?,
                right: self.register(b)?,
                label: self.label(c)?,
            },
            [7, a, b, 0] => Instruction::Assume {
                left: self.register(a)?,
                right: self.register(b)?,
            },
            [8, 0, 0, 0] => Instruction::Fence,
            [9, 0, 0, 0] => Instruction::Term,
            _ => return None,
        })
    }
}
