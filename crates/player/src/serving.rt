// What the program does between a reader and a writer.

ghost use Rattle.intake.specs.Serving.{Serves, TakenAtMost};
ghost use Rattle.player.specs.Answers.{Answered};

use super::answering::answer;
use intake::{read_most, write_text};
use std::alloc::Global;
use std::io;
use std::io::{Read, Write};

// The most bytes that are looked at: a question line, the longest table, an empty line and the longest run, and one byte
// more, so that a longer run is seen to be too long.
const MOST: usize = 3856;

// Plays the run that a reader gives, and writes what it does. No more is taken than is looked at.
pub fn serve<R: Read, W: Write>(heap: Global, input: &mut R, output: &mut W) -> io::Result<()>
    ensures serves { Serves Answered (R.remaining input.old) (W.contents output.old) (W.contents output.new) result }
    ensures left { TakenAtMost 3856 (R.remaining input.old) (R.remaining input.new) }
{
    let given = read_most(heap, input, MOST)?;
    let told = answer(heap, given.as_slice())?;
    write_text(output, told.as_bytes())
}
