// A table: a small concurrent program, read from its text, checked and held.

#![tactic(auto)]

mod access;
mod decoding;
mod filling;
pub mod lines;
mod printing;
mod reading;
pub mod refusals;
pub mod rows;
pub mod tables;
mod writing;

pub use lines::{LINE, Unread, read_lines};
pub use refusals::{Refusal, Short};
pub use rows::{Counts, Instruction, Row};
pub use tables::Table;
