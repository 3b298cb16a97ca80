// A table's program over a memory: where its processes stand, which moves they have, and what a move does.

#![tactic(auto)]

pub mod places;
pub mod records;
mod standing;
pub mod worlds;

pub use places::Place;
pub use records::{Record, Unmade};
pub use worlds::World;
