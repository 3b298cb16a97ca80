use program::Table;
use runs::{Cursor, Search};

// A table, none yet while nothing was read; the search for a question about it, if there is one; and a memory to make
// runs over.
#[derive(Drop)]
pub struct Session<M> {
    pub(crate) cursor: Cursor<M>,
    pub(crate) table: Table,
    pub(crate) search: Option<Search>,
}
