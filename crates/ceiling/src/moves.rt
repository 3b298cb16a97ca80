// One step of a program over a memory: a process, and one of the choices that it is offered there.
#[derive(Clone, Copy)]
pub struct Move {
    pub process: u8,
    pub choice: usize,
}
