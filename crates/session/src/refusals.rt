ghost use Rattle.std.specs.Prelude.{◌≡◌};
ghost use Rattle.session.specs.declared.refusals.Refusal.TheVariants as refusal;

use replay::Fault;
use runs::Unasked;

// Why a call is refused.
#[derive(Clone, Copy, Debug)]
pub enum Refusal {
    // load: the text is not read as a table.
    Table(program::Refusal),
    // put: the question is not asked.
    Question(Unasked),
    // work: there is no question.
    WorkUnasked,
    // work: the effort is 0 or above a million.
    Effort,
    // replay: there is no question.
    ReplayUnasked,
    // replay: the text is no written run that answers the question.
    Run(Fault),
    // report: there is no question.
    ReportUnasked,
    // report: the buffer is shorter than the text.
    Short { needed: usize },
    // sitting: the input is too short or too long.
    Input,
    // sitting: the question line has a wrong field, end or memory.
    QuestionLine,
    // sitting: the buffer is too short.
    Buffer,
}

impl From<program::Refusal> for Refusal {
    ghost from_gives = { λ why told. told ≡ refusal.Table why };

    fn from(why: program::Refusal) -> Refusal {
        Refusal::Table(why)
    }
}

impl From<Unasked> for Refusal {
    ghost from_gives = { λ why told. told ≡ refusal.Question why };

    fn from(why: Unasked) -> Refusal {
        Refusal::Question(why)
    }
}

impl From<Fault> for Refusal {
    ghost from_gives = { λ why told. told ≡ refusal.Run why };

    fn from(why: Fault) -> Refusal {
        Refusal::Run(why)
    }
}
