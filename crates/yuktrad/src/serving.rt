// What the program does between a reader and a writer.

ghost use Rattle.std.specs.Prelude.{◌≡◌};
ghost use Rattle.intake.specs.Serving.{Serves, TakenAtMost};
ghost use Rattle.yuktrad.specs.Printing.{printed};

use intake::{read_most, write_text};
use sitting::sitting;
use std::alloc::Global;
use std::io;
use std::io::{Read, Write};

// The most bytes that are looked at: one more than a sitting takes, so that a longer input is seen to be too long.
const MOST: usize = 4001;

// As many bytes as a sitting writes at most.
const ROOM: usize = 625;

// Does a sitting on what a reader gives, and passes on what that writes. No more is taken than is looked at.
pub fn serve<R: Read, W: Write>(heap: Global, input: &mut R, output: &mut W) -> io::Result<()>
    ensures serves { Serves (λ given text. text ≡ printed given)
        (R.remaining input.old) (W.contents output.old) (W.contents output.new) result }
    ensures left { TakenAtMost 4001 (R.remaining input.old) (R.remaining input.new) }
{
    let given = read_most(heap, input, MOST)?;
    let mut out = [0; ROOM];
    match sitting(given.as_slice(), &mut out) {
        Ok(written) => write_text(output, &out[..written]),
        Err(_) => unreachable(),
    }
}
