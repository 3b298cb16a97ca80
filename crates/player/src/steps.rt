// A step of a run as it is printed.

ghost use Rattle.std.specs.Prelude.{◌≡◌, if◌then◌else◌, Some, codes, ◌==◌};
ghost use Rattle.program.specs.Tables.{program};
ghost use Rattle.player.specs.Words.{deed_words, instruction_of, step_words};

use program::{Instruction, Table};
use std::fmt;

// The instruction of a process and a label, as the numbers of a line give them.
fn instruction(table: &Table, process: u16, label: u16) -> Option<Instruction>
    ensures { result ≡ instruction_of (program table.now) process label }
{
    table.instruction(u8::try_from(process).ok()?, u8::try_from(label).ok()?)
}

// What a process did, and the value seen, where it sees one.
#[derive(Drop)]
struct Deed {
    instruction: Option<Instruction>,
    value: u16,
}

impl fmt::Display for Deed {
    ghost output = { λ d. Some (deed_words d.instruction d.value) };

    fn fmt<W: fmt::Write>(&self, f: &mut fmt::Formatter<W>) -> fmt::Result {
        let value = self.value;
        match self.instruction {
            Some(read @ (Instruction::Read { .. } | Instruction::Cas { .. })) => {
                write!(f, "{read}, saw {value}")
            }
            Some(other) => write!(f, "{other}"),
            None => write!(f, "nothing"),
        }
    }
}

// What is added of a switch.
fn star(mark: u16) -> &'static str
    ensures { result.now ≡ (if mark == 1 then codes " *" else codes "") }
{
    if mark == 1 { " *" } else { "" }
}

// A step by the numbers of its line.
#[derive(Drop)]
pub struct Step<'a> {
    pub table: &'a Table,
    pub numbers: [u16; 6],
}

impl fmt::Display for Step<'_> {
    ghost output = { λ s. Some (step_words (program s.table.now) s.numbers) };

    fn fmt<W: fmt::Write>(&self, f: &mut fmt::Formatter<W>) -> fmt::Result {
        let [number, process, label, _, value, mark] = self.numbers;
        let deed = Deed {
            instruction: instruction(self.table, process, label),
            value,
        };
        let star = star(mark);
        writeln!(f, "{number}: process {process} at {label}: {deed}{star}")
    }
}
