// Which memory is asked for, where it is asked for by name or number.
#[derive(Clone, Copy)]
pub enum Kind {
    Sequential,
    ReleaseAcquire,
}
