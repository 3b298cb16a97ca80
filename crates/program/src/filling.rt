ghost use Rattle.std.specs.Prelude.{◌≡◌, ◌+◌, ◌≤◌, slice_index};
ghost use Rattle.program.specs.Program.{nothing, sums};
ghost use Rattle.program.specs.Reading.{read};
ghost use Rattle.program.specs.Source.{SaysOf};
ghost use Rattle.program.specs.Tables.{program, taken_in};

use super::reading::{Parsed, parse};
use super::refusals::Refusal;
use super::rows::Counts;
use super::tables::Table;
use arrayvec::ArrayVec;

// How many rows stand before those of each process, from how many name each. Written out: a loop over so few
// would say no more, and would carry an index.
fn running_sums(labels: [u8; 5]) -> [u8; 6]
    requires { slice_index labels 0 + slice_index labels 1 + slice_index labels 2 + slice_index labels 3 + slice_index labels 4 ≤ 128 }
    ensures { result ≡ sums labels }
{
    let [none, one, two, three, four] = labels;
    let to_two = none + one;
    let to_three = to_two + two;
    let to_four = to_three + three;
    [0, none, to_two, to_three, to_four, to_four + four]
}

impl Table {
    // A table of which nothing was read.
    pub fn empty() -> Table
        ensures { program result ≡ nothing }
    {
        Table {
            counts: Counts::default(),
            starts: [0; 6],
            rows: ArrayVec::new(),
        }
    }

    // Holds what was read, in place of what was there. Only the rows that there are get copied, and not the room for the
    // most.
    pub(crate) fn hold(&mut self, parsed: Parsed)
        ensures { program self.new ≡ record { counts = parsed.entry.frame.counts; rows = parsed.entry.rows.now.items } }
    {
        let starts = running_sums(parsed.frame.labels);
        self.rows.clear();
        // Both vectors have room for the same number of rows, so they fit.
        let _ = self.rows.try_extend_from_slice(parsed.rows.as_slice());
        self.counts = parsed.frame.counts;
        self.starts = starts;
    }

    // Reads a table from its text; a refusal leaves the table as it was.
    pub fn read(&mut self, text: &[u8]) -> Result<(), Refusal>
        ensures value { (result, program self.new) ≡ taken_in (program self.old) (read text.now) }
        ensures words { SaysOf text.now result (program self.new) }
    {
        parse(text, self)
    }
}
