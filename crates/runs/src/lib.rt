// The runs of a program over a memory, as a list, and the search that goes along it.

#![tactic(auto)]

mod asking;
pub mod cursors;
pub mod lines;
mod moving;
mod notices;
pub mod paths;
pub mod questions;
pub mod searches;
mod searching;
pub mod verdicts;
mod walking;

pub use ceiling::Move;
pub use cursors::Cursor;
pub use lines::{Wish, read_question};
pub use paths::{MOST_STEPS, Run};
pub use questions::{Question, Unasked};
pub use searches::Search;
pub use verdicts::{Verdict, Worked};
