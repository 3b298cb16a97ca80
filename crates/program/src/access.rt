ghost use Rattle.std.specs.Prelude.{◌≡◌, true, false, take, drop};
ghost use Rattle.program.specs.Program.{is_nothing, proper, labels_of, rows_below, instruction_at};
ghost use Rattle.program.specs.Source.{WellMade};
ghost use Rattle.program.specs.Tables.{program, FitsAt};

use super::rows::{Counts, Instruction, Row};
use super::tables::Table;

impl Table {
    // Whether nothing was read yet.
    pub fn is_empty(&self) -> bool
        ensures value { result ≡ is_nothing (program self.now) }
        ensures keeps { result ≡ false → proper (program self.now) ≡ true }
        ensures words { result ≡ false → WellMade (program self.now) }
    {
        self.rows.is_empty()
    }

    pub fn counts(&self) -> Counts
        ensures { result ≡ (program self.now).counts }
    {
        self.counts
    }

    pub fn rows(&self) -> &[Row]
        ensures { result.now ≡ (program self.now).rows }
    {
        self.rows.as_slice()
    }

    // The rows of a process, one for each of its labels from 1 on.
    fn rows_of(&self, process: u8) -> &[Row]
        ensures { let rows = (program self.now).rows in result.now ≡ take (labels_of rows process) (drop (rows_below rows process) rows) }
    {
        let at = usize::from(process);
        if at > 4 {
            return &[];
        }
        let first = usize::from(self.starts[at]);
        let end = usize::from(self.starts[at + 1]);
        &self.rows[first..end]
    }

    // How many labels a process has.
    pub fn labels(&self, process: u8) -> u8
        ensures { result ≡ labels_of (program self.now).rows process }
    {
        // At most 128: the cast keeps it, and `try_from` would add an error.
        self.rows_of(process).len() as u8
    }

    // The instruction of a process at a label.
    pub fn instruction(&self, process: u8, label: u8) -> Option<Instruction>
        ensures value { result ≡ instruction_at (program self.now).rows process label }
        ensures fits { FitsAt (program self.now) process label result }
    {
        let row = self
            .rows_of(process)
            .get(usize::from(label).checked_sub(1)?)?;
        Some(row.instruction)
    }
}
