// What can be wrong with a line.
#[derive(Clone, Copy)]
pub enum Wrong {
    Memory,
    Shape,
    Process,
    Action,
    Variable,
    Value,
    Choice,
}
