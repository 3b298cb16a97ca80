ghost use Rattle.std.specs.Prelude.{◌≡◌, ◌+◌, ◌≤◌, true, false, ◌++◌, length, take, drop, Ok};
ghost use Rattle.text.specs.Lines.{line_text, all_small};
ghost use Rattle.program.specs.Program.{instruction_fields, row_fields, header_fields, is_nothing};
ghost use Rattle.program.specs.Reading.{read};
ghost use Rattle.program.specs.Tables.{program, text_of, table_written};

use super::lines::LINE;
use super::refusals::Short;
use super::rows::{Counts, Instruction, Row};
use super::tables::Table;
use text::write_line;

// The number of an instruction and its operands, 0 where there is none.
impl From<Instruction> for [u16; 4] {
    ghost from_gives = { λ instruction numbers. numbers ≡ instruction_fields instruction };

    fn from(instruction: Instruction) -> [u16; 4] {
        let (number, a, b, c) = match instruction {
            Instruction::Read { register, variable } => (1, register, variable, 0),
            Instruction::Write { variable, register } => (2, variable, register, 0),
            Instruction::Cas { variable, old, new } => (3, variable, old, new),
            Instruction::Set { register, constant } => (4, register, constant, 0),
            Instruction::Add {
                register,
                left,
                right,
            } => (5, register, left, right),
            Instruction::Jeq { left, right, label } => (6, left, right, label),
            Instruction::Assume { left, right } => (7, left, right, 0),
            Instruction::Fence => (8, 0, 0, 0),
            Instruction::Term => (9, 0, 0, 0),
        };
        [number, u16::from(a), u16::from(b), u16::from(c)]
    }
}

// The numbers of a row's line.
impl From<Row> for [u16; 6] {
    ghost from_gives = { λ row numbers. numbers ≡ row_fields row };

    fn from(row: Row) -> [u16; 6] {
        let [number, a, b, c] = <[u16; 4]>::from(row.instruction);
        [
            u16::from(row.process),
            u16::from(row.label),
            number,
            a,
            b,
            c,
        ]
    }
}

impl Counts {
    // The numbers of the header above so many rows.
    fn header(self, rows: u16) -> [u16; 6]
        ensures { result ≡ header_fields self rows }
    {
        [
            u16::from(self.processes),
            u16::from(self.variables),
            u16::from(self.registers),
            u16::from(self.values),
            rows,
            0,
        ]
    }
}

// Writes a line of six numbers over its bytes. It is put in place, as `write_line` is: the compiler then knows that there are
// six numbers, and how large they can be, and writing a table takes less than half the time.
#[inline(always)]
fn put(numbers: [u16; 6], line: &mut [u8])
    requires { (all_small numbers ≡ true) × (length line.old ≡ 25) }
    ensures { line.new ≡ line_text numbers }
{
    let _ = write_line(&numbers, line);
}

impl Table {
    // Writes the table's text to the front of the buffer, and answers its length.
    pub fn write(&self, out: &mut [u8]) -> Result<usize, Short>
        ensures value { (result, out.new) ≡ table_written (program self.now) out.old }
        ensures back { is_nothing (program self.now) ≡ false → read (text_of (program self.now)) ≡ Ok (program self.now) }
    {
        if self.rows.is_empty() {
            return Ok(0);
        }
        let needed = LINE * (self.rows.len() + 1);
        if out.len() < needed {
            return Err(Short { needed });
        }
        // There are at most 128 rows: the cast keeps their number, and `try_from` would add an error.
        put(
            self.counts.header(self.rows.len() as u16),
            &mut out[0..LINE],
        );
        for (i, row) in self.rows.iter().enumerate() {
            let at = LINE * (i + 1);
            put(<[u16; 6]>::from(*row), &mut out[at..at + LINE]);
        }
        Ok(needed)
    }
}
