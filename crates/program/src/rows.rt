ghost use Rattle.std.specs.Prelude.{◌≡◌};
ghost use Rattle.program.specs.Program.{is_term};

// The most rows of a table.
pub(crate) const MOST_ROWS: usize = 128;

// The most lines: the rows and the header.
pub(crate) const MOST_LINES: usize = 129;

// The most labels of a process.
pub(crate) const MOST_LABELS: u16 = 32;

// What a process does at one label; each case has its own operands. Registers, variables and labels
// count from 1.
#[derive(Clone, Copy, Debug, Default, PartialEq, Eq)]
pub enum Instruction {
    // No step follows. It stands first, so that blank rows are zeros alone: room for rows is then made at once and not row by
    // row.
    #[default]
    Term,
    // The register gets the variable.
    Read { register: u8, variable: u8 },
    // The variable gets the register.
    Write { variable: u8, register: u8 },
    // The variable, while it holds the value of register old, gets register new; else the process waits.
    Cas { variable: u8, old: u8, new: u8 },
    // The register gets the constant.
    Set { register: u8, constant: u8 },
    // The register gets the sum of two registers, modulo the number of values.
    Add { register: u8, left: u8, right: u8 },
    // Equal registers lead to the label, others to the next one.
    Jeq { left: u8, right: u8, label: u8 },
    // The process waits unless the registers are equal.
    Assume { left: u8, right: u8 },
    // A fence.
    Fence,
}

// One instruction of a table, with the process and the label that it belongs to.
#[derive(Clone, Copy, Debug, Default, PartialEq, Eq)]
pub struct Row {
    pub process: u8,
    pub label: u8,
    pub instruction: Instruction,
}

impl Row {
    pub(crate) fn is_term(self) -> bool
        ensures { result ≡ is_term self.instruction }
    {
        self.instruction == Instruction::Term
    }
}

// How many processes, variables, registers of each process and values a program has.
#[derive(Clone, Copy, Debug, Default, PartialEq, Eq)]
pub struct Counts {
    pub processes: u8,
    pub variables: u8,
    pub registers: u8,
    pub values: u8,
}
