// A sitting: a session of its own, from an input to a lent buffer.

#![tactic(auto)]

mod asking;
mod searching;
mod sittings;
mod telling;

pub use sittings::{sit, sitting};
