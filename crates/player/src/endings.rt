// What comes of a run, as it is printed.

ghost use Rattle.std.specs.Prelude.{◌≡◌, Some};
ghost use Rattle.player.specs.Answers.{end_words, lines_played};

use notice::Notice;
use replay::{Fault, Played};
use std::fmt;
use wording::Amount;

// How many lines were played before the one that is told, or in all.
pub(crate) fn lines_before(outcome: Result<Played, Fault>) -> usize
    ensures { result ≡ lines_played outcome }
{
    match outcome {
        Ok(played) => usize::from(played.steps),
        Err(Fault::Length | Fault::Field { .. }) => 0,
        Err(Fault::Targets { lines }) => usize::from(lines),
        Err(fault) => usize::from(Notice::from(fault).place).saturating_sub(1),
    }
}

// How many steps and switches a run has, or what is refused.
#[derive(Drop)]
pub struct Ending(pub Result<Played, Fault>);

impl fmt::Display for Ending {
    ghost output = { λ e. Some (end_words e.0) };

    fn fmt<W: fmt::Write>(&self, f: &mut fmt::Formatter<W>) -> fmt::Result {
        match self.0 {
            Ok(played) => {
                let steps = Amount::new(usize::from(played.steps), "step", "steps");
                let switches = Amount::new(usize::from(played.switches), "switch", "switches");
                writeln!(f, "played: {steps}, {switches}")
            }
            Err(fault) => {
                let number = Notice::from(fault).number;
                writeln!(f, "refused ({number}): {fault}")
            }
        }
    }
}
