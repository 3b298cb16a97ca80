// Sessions: the calls that load a table, put a question, search for a run and tell it, over any memory.

#![tactic(auto)]

mod acting;
mod calls;
pub mod making;
mod notices;
mod reciting;
pub mod refusals;
pub mod sessions;
pub mod standings;
pub mod steps;
mod writing;

pub use making::{release_acquire, sequential};
pub use refusals::Refusal;
pub use sessions::Session;
pub use standings::{Stage, Standing};
pub use steps::Step;
