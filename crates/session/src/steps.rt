// A step of the found run, as it is told: its number, counted from 1; its process and the label at which that stood
// before; the choice; the value seen, 0 unless it is a READ or a CAS; and whether it is a switch.
#[derive(Clone, Copy)]
pub struct Step {
    pub step: usize,
    pub process: u8,
    pub label: u8,
    pub choice: usize,
    pub value: u8,
    pub switch: bool,
}
