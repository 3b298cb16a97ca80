// A table as it is printed.

ghost use Rattle.std.specs.Prelude.{◌≡◌, Some};
ghost use Rattle.program.specs.Tables.{program};
ghost use Rattle.listing.specs.Words.{row_words, counts_words, listing};

use program::{Counts, Row, Table};
use std::fmt;
use wording::Amount;

// A row as a line of the listing, under the heading of its process if it is the first. Another crate's type,
// so `Display` cannot be written for it here; so it is of a table below.
#[derive(Drop)]
struct Line(Row);

impl fmt::Display for Line {
    ghost output = { λ l. Some (row_words l.0) };

    fn fmt<W: fmt::Write>(&self, f: &mut fmt::Formatter<W>) -> fmt::Result {
        let process = self.0.process;
        let label = self.0.label;
        let instruction = self.0.instruction;
        if label == 1 {
            writeln!(f, "process {process}\n  {label}: {instruction}")
        } else {
            writeln!(f, "  {label}: {instruction}")
        }
    }
}

// The line of the counts of a table.
#[derive(Drop)]
struct Summary {
    counts: Counts,
    rows: usize,
}

impl fmt::Display for Summary {
    ghost output = { λ s. Some (counts_words s.counts s.rows) };

    fn fmt<W: fmt::Write>(&self, f: &mut fmt::Formatter<W>) -> fmt::Result {
        let counts = self.counts;
        let processes = Amount::new(usize::from(counts.processes), "process", "processes");
        let variables = Amount::new(usize::from(counts.variables), "variable", "variables");
        let registers = Amount::new(usize::from(counts.registers), "register", "registers");
        let values = Amount::new(usize::from(counts.values), "value", "values");
        let rows = Amount::new(self.rows, "row", "rows");
        writeln!(f, "{processes}, {variables}, {registers}, {values}, {rows}")
    }
}

// A table as a programmer would read it.
#[derive(Drop)]
pub struct Listed<'a>(pub &'a Table);

impl fmt::Display for Listed<'_> {
    ghost output = { λ l. Some (listing (program l.0.now)) };

    fn fmt<W: fmt::Write>(&self, f: &mut fmt::Formatter<W>) -> fmt::Result {
        let table = self.0;
        let rows = table.rows();
        let summary = Summary {
            counts: table.counts(),
            rows: rows.len(),
        };
        write!(f, "{summary}")?;
        for row in rows {
            let line = Line(*row);
            write!(f, "{line}")?;
        }
        Ok(())
    }
}
