ghost use Rattle.std.specs.Prelude.{◌≡◌, drop, Ok};
ghost use Rattle.program.specs.Reading.{then_do};
ghost use Rattle.sitting.specs.Inputs.{asked_in};

use runs::{Wish, read_question};
use session::Refusal;

// How many bytes a question line has.
const QUESTION: usize = 29;

// The most bytes of an input.
const MOST: usize = 4000;

// What an input asks for, and the text of its table.
#[derive(Clone, Copy)]
pub(crate) struct Request<'a> {
    pub(crate) wish: Wish,
    pub(crate) text: &'a [u8],
}

// Cuts an input after its question line.
pub(crate) fn cut(input: &[u8]) -> Result<Request<'_>, Refusal>
    ensures { then_do result (λ r. Ok (r.wish, r.text.now)) ≡ asked_in input.now }
{
    if !(QUESTION..=MOST).contains(&input.len()) {
        return Err(Refusal::Input);
    }
    let (line, text) = input.split_at(QUESTION);
    let wish = read_question(line).ok_or(Refusal::QuestionLine)?;
    Ok(Request { wish, text })
}
