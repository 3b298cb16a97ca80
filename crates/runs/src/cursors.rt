use super::paths::Run;
use worlds::World;

// A world, and the run that led to it; so many switches are left.
#[derive(Drop)]
pub struct Cursor<M> {
    pub world: World<M>,
    pub run: Run,
    pub room: u8,
}
