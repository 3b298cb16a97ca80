ghost use Rattle.std.specs.Prelude.{◌≡◌};
ghost use Rattle.intake.specs.Serving.{Serves, Writes};
ghost use Rattle.sittings.specs.Batches.{Answers, batch_text};

use super::answering::{answer, end};
use super::cases::first_case;
use intake::read_all;
use std::alloc::Global;
use std::io;
use std::io::{Read, Write};

// Answers the cases of a batch, one after another, up to the first that cannot be read.
fn answer_all<W: Write>(heap: Global, batch: &[u8], output: &mut W) -> io::Result<()>
    ensures { Writes (W.contents output.old) (W.contents output.new) result (batch_text batch.now) }
{
    let mut rest = batch;
    // As many turns as bytes: each case has some.
    for passed in 0..batch.len() {
        let Some(case) = first_case(rest) else {
            return end(heap, passed + 1, rest, output);
        };
        answer(heap, case, output)?;
        rest = case.rest;
    }
    Ok(())
}

// Does one sitting after another from the batch that a reader gives.
pub fn serve<R: Read, W: Write>(heap: Global, input: &mut R, output: &mut W) -> io::Result<()>
    ensures serves { Serves (λ b text. text ≡ batch_text b) (R.remaining input.old) (W.contents output.old) (W.contents output.new) result }
    ensures words { Serves Answers (R.remaining input.old) (W.contents output.old) (W.contents output.new) result }
{
    let batch = read_all(heap, input)?;
    answer_all(heap, batch.as_slice(), output)
}
