// What a process asks of a memory. Variables are 0 to V, and values 0 to 255.
#[derive(Clone, Copy)]
pub enum Action {
    // A step that the memory takes no part in.
    Local,
    Read { variable: u8 },
    Write { variable: u8, value: u8 },
    // The variable, while it holds the old value, gets the new one.
    Swap { variable: u8, old: u8, new: u8 },
    Fence,
}

// What a process asks for, with the choice that it takes among those that are offered.
#[derive(Clone, Copy)]
pub struct Take {
    pub process: u8,
    pub action: Action,
    pub choice: usize,
}

// What a process sees by a step: a value, 0 for Local and Write, as a law of every memory says, and whether the
// step is a switch.
#[derive(Clone, Copy, Default)]
pub struct Seen {
    pub value: u8,
    pub switch: bool,
}

// The choice is not below the offer, which is this.
#[derive(Clone, Copy, Debug)]
pub struct NotOffered {
    pub offered: usize,
}
