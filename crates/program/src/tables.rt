ghost use Rattle.std.specs.Prelude.{◌≡◌, true};
ghost use Rattle.program.specs.Program.{kept, starts_of};

use super::rows::{Counts, MOST_ROWS, Row};
use arrayvec::ArrayVec;

// A program, or none yet. Its rows stand in place, since there are few. None yet is a table without rows and with counts
// of 0: an Option around a program would be unwrapped at every look-up.
#[derive(Drop)]
pub struct Table {
    pub(crate) counts: Counts,
    // How many rows name a process below each of 0 to 5.
    pub(crate) starts: [u8; 6],
    pub(crate) rows: ArrayVec<Row, MOST_ROWS>,
    ghost keeps: { kept (record { counts = counts; rows = rows.items }) ≡ true },
    ghost placed: { starts ≡ starts_of rows.items },
}
