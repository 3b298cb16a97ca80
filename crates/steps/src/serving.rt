ghost use Rattle.std.specs.Prelude.{◌≡◌};
ghost use Rattle.intake.specs.Serving.{Serves};
ghost use Rattle.steps.specs.Answers.{answered};

use super::answering::answer;
use intake::{read_all, write_text};
use std::alloc::Global;
use std::io;
use std::io::{Read, Write};

// Performs the actions that a reader gives, and tells what came of each. All is read: there may be any number of lines.
pub fn serve<R: Read, W: Write>(heap: Global, input: &mut R, output: &mut W) -> io::Result<()>
    ensures { Serves (λ given text. text ≡ answered given) (R.remaining input.old) (W.contents output.old) (W.contents output.new) result }
{
    let given = read_all(heap, input)?;
    let text = answer(heap, given.as_slice())?;
    write_text(output, text.as_bytes())
}
