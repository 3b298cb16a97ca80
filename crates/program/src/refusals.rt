ghost use Rattle.std.specs.Prelude.{◌≡◌};
ghost use Rattle.program.specs.Refusals.{notice, unread};

use super::lines::Unread;
use notice::{Notice, Part};

// Why a text is not read as a table. Lines count from 1; the header is line 1.
#[derive(Clone, Copy, Debug, PartialEq, Eq)]
pub enum Refusal {
    // The length is not that of 2 to 129 lines.
    Length,
    // A field or the end of the line is wrong.
    Field { line: u8 },
    // A number of the header is outside its limits, or its number of rows is not that of the text.
    Header,
    // The process and the label don't follow the row above, or pass a limit.
    Order { line: u8 },
    // No such instruction, or an operand outside its range.
    Operand { line: u8 },
    // The last row of a process is not TERM.
    NoTerm { line: u8 },
    // The rows end before the last process.
    NoProcess { line: u8 },
}

impl From<Unread> for Refusal {
    ghost from_gives = { λ why refusal. refusal ≡ unread why };

    fn from(why: Unread) -> Refusal {
        match why {
            Unread::Length => Refusal::Length,
            Unread::Field { line } => Refusal::Field { line },
        }
    }
}

// A buffer is shorter than a table's text, which has this length.
#[derive(Clone, Copy, Debug, PartialEq, Eq)]
pub struct Short {
    pub needed: usize,
}

impl From<Refusal> for Notice {
    ghost from_gives = { λ refusal told. told ≡ notice refusal };

    fn from(refusal: Refusal) -> Notice {
        let (number, place, part) = match refusal {
            Refusal::Length => (11, 0, Part::Text),
            Refusal::Field { line } => (12, line, Part::Text),
            Refusal::Header => (13, 1, Part::Table),
            Refusal::Order { line } => (14, line, Part::Table),
            Refusal::Operand { line } => (15, line, Part::Table),
            Refusal::NoTerm { line } | Refusal::NoProcess { line } => (16, line, Part::Table),
        };
        Notice {
            number,
            place,
            part,
        }
    }
}
