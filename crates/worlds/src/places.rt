// Where a process stands: at a label, with its registers. Register r is at r - 1.
#[derive(Clone, Copy)]
pub struct Place {
    pub label: u8,
    pub registers: [u8; 4],
}
