// A refusal as it is printed.

ghost use Rattle.std.specs.Prelude.{Some};
ghost use Rattle.listing.specs.Words.{refusal_words};

use notice::Notice;
use program::Refusal;
use std::fmt;

// A refusal, with its number; of itself it prints only what is wrong.
#[derive(Drop)]
pub struct Told(pub Refusal);

impl fmt::Display for Told {
    ghost output = { λ t. Some (refusal_words t.0) };

    fn fmt<W: fmt::Write>(&self, f: &mut fmt::Formatter<W>) -> fmt::Result {
        let number = Notice::from(self.0).number;
        let refusal = self.0;
        write!(f, "refused ({number}): {refusal}")
    }
}
