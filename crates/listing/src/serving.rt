ghost use Rattle.std.specs.Prelude.{◌≡◌};
ghost use Rattle.intake.specs.Serving.{Serves, TakenAtMost};
ghost use Rattle.program.specs.Reading.{read};
ghost use Rattle.listing.specs.Words.{answered};

use super::answering::answer;
use intake::{read_most, write_text};
use std::alloc::Global;
use std::io;
use std::io::{Read, Write};

// The most bytes that are looked at: one more than the longest text of a table has, 129 lines of 25 bytes, so that a
// longer text is seen to be too long.
const MOST: usize = 3226;

// Lists the table that a reader gives, or says why it is refused. What is written belongs to all that the reader had left,
// and no more of it is taken than is looked at.
pub fn serve<R: Read, W: Write>(heap: Global, input: &mut R, output: &mut W) -> io::Result<()>
    ensures serves { Serves (λ given text. text ≡ answered (read given))
        (R.remaining input.old) (W.contents output.old) (W.contents output.new) result }
    ensures left { TakenAtMost 3226 (R.remaining input.old) (R.remaining input.new) }
{
    let given = read_most(heap, input, MOST)?;
    let text = answer(heap, given.as_slice())?;
    write_text(output, text.as_bytes())
}
