// What is printed for a case.

ghost use Rattle.intake.specs.Serving.{Writes};
ghost use Rattle.sitting.specs.Outputs.{sat_in};
ghost use Rattle.sittings.specs.Batches.{case_text, ending, outcome_text};
ghost use Rattle.sittings.specs.Cases.{the_case};

use super::cases::Case;
use intake::write_text;
use notice::Notice;
use sitting::sitting;
use std::alloc::Global;
use std::io;
use std::io::Write;

// As many bytes as a sitting writes at most.
const ROOM: usize = 625;

// Does a sitting in a buffer, and writes the number of bytes that it writes, and then these; or its refusal.
fn sit<W: Write>(heap: Global, input: &[u8], buffer: &mut [u8], output: &mut W) -> io::Result<()>
    ensures { Writes (W.contents output.old) (W.contents output.new) result (outcome_text (sat_in input.now buffer.old)) }
{
    match sitting(input, buffer) {
        Ok(written) => {
            let line = format!(in heap; "{written}\n")?;
            write_text(output, line.as_bytes())?;
            write_text(output, &buffer[..written])
        }
        Err(why) => {
            let number = Notice::from(why).number;
            let line = format!(in heap; "refused {number}\n")?;
            write_text(output, line.as_bytes())
        }
    }
}

// Does the sitting of a case. More room than a sitting fills changes nothing.
pub(crate) fn answer<W: Write>(heap: Global, case: Case, output: &mut W) -> io::Result<()>
    ensures { Writes (W.contents output.old) (W.contents output.new) result (case_text (the_case case.entry)) }
{
    let mut buffer = [0; ROOM];
    sit(heap, case.input, &mut buffer[..case.room.min(ROOM)], output)
}

// Tells the case that cannot be read, if there is one.
pub(crate) fn end<W: Write>(
    heap: Global,
    number: usize,
    rest: &[u8],
    output: &mut W,
) -> io::Result<()>
    ensures { Writes (W.contents output.old) (W.contents output.new) result (ending number rest.now) }
{
    if rest.is_empty() {
        return Ok(());
    }
    let line = format!(in heap;
        "case {number} cannot be read: a case is a line of two numbers, the bytes of its input and of its buffer, and then its input\n"
    )?;
    write_text(output, line.as_bytes())
}
