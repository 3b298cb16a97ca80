ghost use Rattle.std.specs.Prelude.{◌≡◌};
ghost use Rattle.replay.specs.Notices.{notice, offer};
ghost use Rattle.replay.specs.Playing.{unmade, unread};

use memory::NotOffered;
use notice::{Notice, Part};
use program::Unread;
use worlds::Unmade;

// What an accepted run has.
#[derive(Clone, Copy, Debug, PartialEq, Eq)]
pub struct Played {
    pub steps: u8,
    pub switches: u8,
}

// Why a text is no written run within bounds that reaches the targets. Lines count from 1.
#[derive(Clone, Copy, Debug)]
pub enum Fault {
    // The length is not that of 0 to 24 lines.
    Length,
    // A field or the end of the line is wrong.
    Field { line: u8 },
    // The step number is not the line's.
    Number { line: u8 },
    // There is no such process, or it stands elsewhere.
    Process { line: u8 },
    // The process has no move where it stands.
    NoMove { line: u8 },
    // The memory does not offer the choice.
    Choice { line: u8, refused: NotOffered },
    // The value or the switch mark is another one.
    Seen { line: u8 },
    // The line passes the step bound, or its switches pass the switch bound.
    Bounds { line: u8 },
    // After so many lines the targets are not reached.
    Targets { lines: u8 },
}

impl From<Unread> for Fault {
    ghost from_gives = { λ why fault. fault ≡ unread why };

    fn from(why: Unread) -> Fault {
        match why {
            Unread::Length => Fault::Length,
            Unread::Field { line } => Fault::Field { line },
        }
    }
}

// Why the move of a line is not made.
#[derive(Clone, Copy)]
pub(crate) struct AtLine {
    pub(crate) line: u8,
    pub(crate) why: Unmade,
}

impl From<AtLine> for Fault {
    ghost from_gives = { λ at fault. fault ≡ unmade at.line at.why };

    fn from(at: AtLine) -> Fault {
        let line = at.line;
        match at.why {
            Unmade::NoMove => Fault::NoMove { line },
            Unmade::Refused(refused) => Fault::Choice { line, refused },
        }
    }
}

impl From<Fault> for Notice {
    ghost from_gives = { λ fault told. told ≡ notice fault };

    fn from(fault: Fault) -> Notice {
        let (number, place, part) = match fault {
            Fault::Length => (42, 0, Part::Text),
            Fault::Field { line } => (43, line, Part::Text),
            Fault::Number { line } => (51, line, Part::Run),
            Fault::Process { line } => (52, line, Part::Run),
            Fault::NoMove { line } => (53, line, Part::Run),
            Fault::Choice { line, refused } => (Notice::from(refused).number, line, Part::Run),
            Fault::Seen { line } => (54, line, Part::Run),
            Fault::Bounds { line } => (55, line, Part::Run),
            Fault::Targets { lines } => (56, lines, Part::Run),
        };
        Notice {
            number,
            place,
            part,
        }
    }
}

impl Fault {
    // How many choices are offered, where the line's is none of them.
    pub fn offered(self) -> Option<usize>
        ensures { result ≡ offer self }
    {
        match self {
            Fault::NoMove { .. } => Some(0),
            Fault::Choice { refused, .. } => Some(refused.offered),
            _ => None,
        }
    }
}
