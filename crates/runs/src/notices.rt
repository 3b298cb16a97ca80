// Why a question is not asked, as it is told and printed.

ghost use Rattle.std.specs.Prelude.{◌≡◌, Some};
ghost use Rattle.runs.specs.Notices.{notice};
ghost use Rattle.runs.specs.Words.{reason};

use super::questions::Unasked;
use notice::{Notice, Part};
use std::error::Error;
use std::fmt;

impl From<Unasked> for Notice {
    ghost from_gives = { λ why told. told ≡ notice why };

    fn from(why: Unasked) -> Notice {
        let (number, place) = match why {
            Unasked::NoTable => (21, 0),
            Unasked::Bounds => (22, 0),
            Unasked::Target { process } => (23, process),
        };
        Notice {
            number,
            place,
            part: Part::Question,
        }
    }
}

impl fmt::Display for Unasked {
    ghost output = { λ why. Some (reason why) };

    fn fmt<W: fmt::Write>(&self, f: &mut fmt::Formatter<W>) -> fmt::Result {
        match *self {
            Unasked::NoTable => write!(f, "no table was read"),
            Unasked::Bounds => write!(f, "a bound is above 24"),
            Unasked::Target { process } => write!(
                f,
                "the target of process {process} is none of its labels"
            ),
        }
    }
}

impl Error for Unasked {}
