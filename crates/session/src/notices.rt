// A refusal as it is told.

ghost use Rattle.std.specs.Prelude.{◌≡◌};
ghost use Rattle.session.specs.Notices.{notice};

use super::refusals::Refusal;
use notice::{Notice, Part};

// A refusal that is told at no place.
fn placeless(number: u8, part: Part) -> Notice
    ensures { result ≡ record { number = number; place = 0; part = part } }
{
    Notice {
        number,
        place: 0,
        part,
    }
}

impl From<Refusal> for Notice {
    ghost from_gives = { λ refusal told. told ≡ notice refusal };

    fn from(refusal: Refusal) -> Notice {
        match refusal {
            Refusal::Table(why) => Notice::from(why),
            Refusal::Question(why) => Notice::from(why),
            Refusal::WorkUnasked => placeless(31, Part::Question),
            Refusal::Effort => placeless(32, Part::Question),
            Refusal::ReplayUnasked => placeless(41, Part::Question),
            Refusal::Run(fault) => Notice::from(fault),
            Refusal::ReportUnasked => placeless(61, Part::Question),
            Refusal::Short { .. } => placeless(62, Part::Question),
            Refusal::Input => placeless(71, Part::Text),
            Refusal::QuestionLine => placeless(72, Part::Text),
            Refusal::Buffer => placeless(73, Part::Question),
        }
    }
}
