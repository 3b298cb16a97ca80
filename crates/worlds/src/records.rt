ghost use Rattle.std.specs.Prelude.{◌≡◌};
ghost use Rattle.worlds.specs.declared.records.Unmade.TheVariants.{Refused as Refuses};

use memory::NotOffered;

// One step of a run as it was made: the label is that of the process before it, and the value what it saw, 0 unless
// it is a READ or a CAS.
#[derive(Clone, Copy, Default)]
pub struct Record {
    pub process: u8,
    pub label: u8,
    pub choice: usize,
    pub value: u8,
    pub switch: bool,
}

// Why a move is not made.
#[derive(Clone, Copy)]
pub enum Unmade {
    // The process has no move where it stands, or there is no such process.
    NoMove,
    // The memory does not offer the choice.
    Refused(NotOffered),
}

impl From<NotOffered> for Unmade {
    ghost from_gives = { λ refused why. why ≡ Refuses refused };

    fn from(refused: NotOffered) -> Unmade {
        Unmade::Refused(refused)
    }
}
