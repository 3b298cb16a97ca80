// What a memory is, and three of them: sequential, release-acquire, and a layer that does fences over any
// memory.

#![tactic(auto)]

pub mod actions;
mod driving;
pub mod fences;
pub mod kinds;
mod limits;
pub mod memories;
mod messages;
mod places;
pub mod release_acquire;
mod rules;
pub mod sequential;
pub mod shapes;
mod telling;
mod views;

pub use actions::{Action, NotOffered, Seen, Take};
pub use driving::drive;
pub use fences::Fences;
pub use kinds::Kind;
pub use memories::Memory;
pub use release_acquire::ReleaseAcquire;
pub use sequential::Sequential;
pub use shapes::Shape;
