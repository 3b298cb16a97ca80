// Plays a written run: reads its lines, makes its moves, and accepts it or tells what is wrong with it.

#![tactic(auto)]

pub mod faults;
pub mod playing;
mod printing;

pub use faults::{Fault, Played};
pub use playing::replay;
