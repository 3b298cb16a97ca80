// A text is written, by writes that may take few bytes at a time.

ghost use Rattle.std.specs.Prelude.{◌≤◌, length, take, IfOk, OnErr};
ghost use Rattle.std.specs.Io.KnownBytes.{Appends, Keeps};
ghost use Rattle.intake.specs.Serving.{Writes};

use std::io;
use std::io::{ErrorKind, Write};

// Writes a text. At an error the writer has grown by a front of it, and by nothing else.
pub fn write_text<W: Write>(writer: &mut W, text: &[u8]) -> io::Result<()>
    ensures { Writes (W.contents writer.old) (W.contents writer.new) result text.now }
{
    let mut written = 0;
    while written < text.len() {
        let count = write_uninterrupted(writer, &text[written..])?;
        if count == 0 {
            return Err(ErrorKind::WriteZero.into());
        }
        written += count;
    }
    Ok(())
}

// One write, tried again where a signal interrupts it.
fn write_uninterrupted<W: Write>(writer: &mut W, text: &[u8]) -> io::Result<usize>
    ensures fits { IfOk result (λ n. n ≤ length text.now) }
    ensures written { IfOk result (λ n. Appends (W.contents writer.old) (W.contents writer.new) (take n text.now)) }
    ensures kept { OnErr result (Keeps (W.contents writer.old) (W.contents writer.new)) }
{
    for _ in 0..u64::MAX {
        match writer.write(text) {
            Err(error) if error.kind() == ErrorKind::Interrupted => {}
            answer => return answer,
        }
    }
    Err(ErrorKind::TimedOut.into())
}
