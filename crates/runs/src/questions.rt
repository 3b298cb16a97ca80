ghost use Rattle.std.specs.Prelude.{◌≤◌};

use memory::Shape;

// What is asked: runs of at most so many steps and switches that reach a label of each process, 0 where any label will
// do. The shape is that of the table for so many steps.
#[derive(Clone, Copy)]
pub struct Question {
    pub shape: Shape,
    pub steps: u8,
    pub switches: u8,
    pub targets: [u8; 4],
    ghost short: { steps ≤ 24 },
    ghost few: { switches ≤ 24 },
}

// Why a question is not asked.
#[derive(Clone, Copy, Debug, PartialEq, Eq)]
pub enum Unasked {
    // No table was read.
    NoTable,
    // A bound is above 24.
    Bounds,
    // The target of this process is none of its labels.
    Target { process: u8 },
}
