// Tables that the tests ask of, and their texts.

use program::Table;
use runs::Question;
use std::alloc::Global;
use std::process::Abort;
use std::test::Fail;
use text::write_line;

// Process 1 writes, process 2 reads; nothing leads to label 3 of process 1.
pub(crate) const SMALL: [[u16; 6]; 6] = [
    [2, 1, 1, 2, 5, 0],
    [1, 1, 2, 1, 1, 0],
    [1, 2, 9, 0, 0, 0],
    [1, 3, 9, 0, 0, 0],
    [2, 1, 1, 1, 1, 0],
    [2, 2, 9, 0, 0, 0],
];

pub(crate) const STORE_BUFFERING: [[u16; 6]; 11] = [
    [2, 2, 3, 2, 10, 0],
    [1, 1, 4, 1, 1, 0],
    [1, 2, 2, 1, 1, 0],
    [1, 3, 1, 2, 2, 0],
    [1, 4, 7, 2, 3, 0],
    [1, 5, 9, 0, 0, 0],
    [2, 1, 4, 1, 1, 0],
    [2, 2, 2, 2, 1, 0],
    [2, 3, 1, 2, 1, 0],
    [2, 4, 7, 2, 3, 0],
    [2, 5, 9, 0, 0, 0],
];

pub(crate) fn text_of(heap: Global, lines: &[[u16; 6]]) -> Result<Vec<u8>, Fail> {
    let mut text = Vec::new(heap);
    for line in lines {
        let mut bytes = [0; 25];
        let _ = write_line(line, &mut bytes);
        text.extend_from_slice(&bytes)?;
    }
    Ok(text)
}

pub(crate) fn table_of(rt: &impl Abort, heap: Global, lines: &[[u16; 6]]) -> Result<Table, Fail> {
    let mut table = Table::empty();
    assert!(rt; table.read(text_of(heap, lines)?.as_slice()).is_ok());
    Ok(table)
}

pub(crate) fn asked(
    table: &Table,
    steps: u16,
    switches: u16,
    targets: [u16; 4],
) -> Result<Question, Fail> {
    Question::new(table, steps, switches, targets).map_err(|_| Fail::new("not asked"))
}
