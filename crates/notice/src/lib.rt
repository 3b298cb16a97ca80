// A refusal as it is told.

#![tactic(auto)]

// The part that found what is wrong.
#[derive(Clone, Copy, Debug, PartialEq, Eq)]
pub enum Part {
    Text,
    Table,
    Run,
    Memory,
    Question,
}

// A refusal as it is told: its number, its place, 0 where no place is meant, and the part that found it. The numbers
// are the format's, and nothing goes by them: code goes by the cases of the refusal.
#[derive(Clone, Copy, Debug, PartialEq, Eq)]
pub struct Notice {
    pub number: u8,
    pub place: u8,
    pub part: Part,
}
