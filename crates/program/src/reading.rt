ghost use Rattle.std.specs.Prelude.{◌≡◌, ◌≤◌, true, [], length, drop, Ok, OnOk, slice_index, slice_index_or};
ghost use Rattle.arrayvec.specs.ArrayVec.{array_vec_len};
ghost use Rattle.program.specs.Program.{follows, labels_of, proper, Counted};
ghost use Rattle.program.specs.Reading.{header_read, row_read, rows_read, ends_read, named, then_do, read};
ghost use Rattle.program.specs.Tables.{program, taken_in};

use super::decoding::Scope;
use super::lines::read_lines;
use super::refusals::Refusal;
use super::rows::{Counts, MOST_LABELS, MOST_LINES, MOST_ROWS, Row};
use super::tables::Table;
use arrayvec::ArrayVec;

// The numbers of each line of a text: those of the header, then those of each line below it.
#[derive(Clone, Copy)]
struct Lines<'a> {
    all: &'a ArrayVec<[u16; 6], MOST_LINES>,
    ghost some: { 1 ≤ array_vec_len all.now },
}

impl<'a> Lines<'a> {
    fn header(&self) -> [u16; 6]
        ensures { result ≡ slice_index_or self.now.all.now.items 0 [] }
    {
        self.all[0]
    }

    fn below(&self) -> &'a [[u16; 6]]
        ensures value { result.now ≡ drop 1 self.now.all.now.items }
        ensures bound { length result.now ≤ 128 }
    {
        &self.all[1..]
    }

    // How many of the lines below the header name each process.
    fn tally(&self) -> [u8; 5]
        ensures { Counted result (named (drop 1 self.now.all.now.items)) }
    {
        let mut labels = [0; 5];
        // By index, since a proof does not know what is written through get_mut.
        for line in self.below() {
            let process = usize::from(line[0]);
            if process < 5 {
                labels[process] += 1;
            }
        }
        labels
    }
}

// The counts of a header that says how many rows follow it. Numbers behind their limits are cast, here, for a row
// and for the lines, of which there are at most 129: that nothing is lost is proved, and `try_from` would add a
// branch that no text takes.
fn header(line: [u16; 6], rows: usize) -> Result<Counts, Refusal>
    ensures { result ≡ header_read line rows }
{
    match line {
        [
            processes @ 1..=4,
            variables @ 1..=4,
            registers @ 1..=4,
            values @ 2..=8,
            count @ 1..=128,
            0,
        ] if usize::from(count) == rows => Ok(Counts {
            processes: processes as u8,
            variables: variables as u8,
            registers: registers as u8,
            values: values as u8,
        }),
        _ => Err(Refusal::Header),
    }
}

// What rows are judged by: the counts of the header, and how many rows name each process.
#[derive(Clone, Copy)]
pub(crate) struct Frame {
    pub(crate) counts: Counts,
    pub(crate) labels: [u8; 5],
    ghost few: { counts.processes ≤ 4 },
}

impl Frame {
    // Whether a process and a label may stand below a row, or first, which is below process 0.
    fn may_follow(self, above: Row, next: u16, at: u16) -> bool
        ensures value { result ≡ follows self.counts above.process above.label next at }
        ensures bound { result ≡ true → (next ≤ self.counts.processes) × (at ≤ 32) }
    {
        let process = u16::from(above.process);
        let same = process >= 1 && next == process && at == u16::from(above.label) + 1;
        let new = next == process + 1 && at == 1;
        (same || new) && next <= u16::from(self.counts.processes) && at <= MOST_LABELS
    }

    // One line as the row below another.
    fn row(self, above: Row, line: [u16; 6], number: u8) -> Result<Row, Refusal>
        ensures { result ≡ row_read self.counts (λ q. slice_index self.labels q) above.process above.label number line }
    {
        let [next, at, code, a, b, c] = line;
        if !self.may_follow(above, next, at) {
            return Err(Refusal::Order { line: number });
        }
        let scope = Scope {
            counts: self.counts,
            labels: self.labels[usize::from(next)],
        };
        let instruction = scope
            .instruction([code, a, b, c])
            .ok_or(Refusal::Operand { line: number })?;
        Ok(Row {
            process: next as u8,
            label: at as u8,
            instruction,
        })
    }

    // Puts the rows of the lines below a header into an empty vector, each judged below the one before.
    fn rows(self, lines: &Lines, rows: &mut ArrayVec<Row, MOST_ROWS>) -> Result<(), Refusal>
        requires counted { Counted self.labels (named (drop 1 lines.now.all.now.items)) }
        requires empty { rows.old.items ≡ [] }
        ensures value { then_do result (λ _. Ok rows.new.items) ≡ rows_read self.counts (named (drop 1 lines.now.all.now.items)) 0 0 2 (drop 1 lines.now.all.now.items) }
        ensures labels { OnOk result (Counted self.labels (labels_of rows.new.items)) }
    {
        // Process 0 stands before the first row, so process 1 follows it by the rule of any next process; an
        // Option would be a case of its own.
        let mut above = Row::default();
        for (i, line) in lines.below().iter().enumerate() {
            above = self.row(above, *line, (i + 2) as u8)?;
            rows.push(above);
        }
        Ok(())
    }
}

// Each process's last row is TERM, and the last row is of the last process.
fn check_ends(processes: u8, rows: &ArrayVec<Row, MOST_ROWS>) -> Result<(), Refusal>
    ensures { result ≡ ends_read processes 2 rows.now.items }
{
    for (i, [above, below]) in rows.array_windows::<2>().enumerate() {
        if above.process != below.process && !above.is_term() {
            return Err(Refusal::NoTerm {
                line: (i + 2) as u8,
            });
        }
    }
    let line = (rows.len() + 1) as u8;
    match rows.last() {
        Some(last) if !last.is_term() => Err(Refusal::NoTerm { line }),
        Some(last) if last.process < processes => Err(Refusal::NoProcess { line }),
        _ => Ok(()),
    }
}

// What was read: the rows, which are lent, and what they were judged by.
#[derive(Clone, Copy)]
pub(crate) struct Parsed<'a> {
    pub(crate) frame: Frame,
    pub(crate) rows: &'a ArrayVec<Row, MOST_ROWS>,
    ghost counted: { Counted frame.labels (labels_of rows.now.items) },
    ghost right: { proper (record { counts = frame.counts; rows = rows.now.items }) ≡ true },
}

// Reads a text into a table, which a refusal leaves as it was. The rows are lent to the table, as the lines are to what
// judges them: handed out by value, they are copied at each step with the room for the most, and a table of two lines takes
// twice as long to read.
pub(crate) fn parse(text: &[u8], table: &mut Table) -> Result<(), Refusal>
    ensures { (result, program table.new) ≡ taken_in (program table.old) (read text.now) }
{
    let mut all = ArrayVec::new();
    read_lines(text, 2, &mut all)?;
    let lines = Lines { all: &all };
    let frame = Frame {
        counts: header(lines.header(), lines.below().len())?,
        labels: lines.tally(),
    };
    let mut rows = ArrayVec::new();
    frame.rows(&lines, &mut rows)?;
    check_ends(frame.counts.processes, &rows)?;
    table.hold(Parsed { frame, rows: &rows });
    Ok(())
}
