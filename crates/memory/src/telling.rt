// A memory's own refusal, as it is told.

ghost use Rattle.std.specs.Prelude.{◌≡◌};
ghost use Rattle.memory.specs.Notices.{notice};

use super::actions::NotOffered;
use notice::{Notice, Part};

impl From<NotOffered> for Notice {
    ghost from_gives = { λ refused told. told ≡ notice refused };

    fn from(_refused: NotOffered) -> Notice {
        Notice {
            number: 53,
            place: 0,
            part: Part::Memory,
        }
    }
}
