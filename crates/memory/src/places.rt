ghost use Rattle.std.specs.Prelude.{◌≤◌};

use super::release_acquire::ReleaseAcquire;

// A process and a variable that it accesses.
#[derive(Clone, Copy)]
pub(crate) struct Access {
    pub(crate) process: u8,
    pub(crate) variable: u8,
    ghost peopled: { process ≤ 4 },
    ghost stored: { variable ≤ 4 },
}

// A timestamp in a memory, at which a process accesses a variable.
#[derive(Clone, Copy)]
pub(crate) struct Place<'a> {
    pub(crate) memory: &'a ReleaseAcquire,
    pub(crate) access: Access,
    pub(crate) at: u8,
    ghost low: { at ≤ memory.now.shape.ceiling },
}
