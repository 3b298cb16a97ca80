// What a program is given, its standard input and a number among its arguments, and the text that it writes.

#![tactic(auto)]

ghost use Rattle.std.specs.Prelude.{◌≡◌, take, IfOk, IfSome, MatchOption, string_bytes};
ghost use Rattle.std.specs.Io.KnownBytes.{Consumes};
ghost use Rattle.intake.specs.Numbers.{WordOr};
ghost use Rattle.intake.specs.Serving.{TakenAtMost};

mod filling;
mod writing;

use filling::fill;
use std::alloc::Global;
use std::io;
use std::io::Read;
pub use writing::write_text;

// All that a reader has left.
pub fn read_all<R: Read>(heap: Global, reader: &mut R) -> io::Result<Vec<u8>>
    ensures { IfOk result (λ v. IfSome (R.remaining reader.old) (λ bytes. v.items ≡ bytes)) }
{
    let mut bytes = Vec::new(heap);
    reader.read_to_end(&mut bytes)?;
    Ok(bytes)
}

// The first bytes that a reader has left, at most so many. These are taken from it, and no more; an error loses what was
// read before it.
pub fn read_most<R: Read>(heap: Global, reader: &mut R, most: usize) -> io::Result<Vec<u8>>
    ensures all { IfOk result (λ v. IfSome (R.remaining reader.old) (λ bytes. v.items ≡ take most bytes)) }
    ensures taken { IfOk result (λ v. Consumes (R.remaining reader.old) (R.remaining reader.new) v.items) }
    ensures left { TakenAtMost most (R.remaining reader.old) (R.remaining reader.new) }
{
    let mut bytes = vec![in heap; 0; most]?;
    let filled = fill(reader, bytes.as_mut_slice())?;
    bytes.truncate(filled);
    Ok(bytes)
}

// The number that a word writes, or another one where there is no word or it writes none.
pub fn number_or(word: Option<String>, other: u32) -> u32
    ensures { MatchOption word (result ≡ other) (λ w. WordOr (string_bytes w) other result) }
{
    match word {
        Some(word) => word.as_str().parse().unwrap_or(other),
        None => other,
    }
}

#[cfg(test)]
mod tests {
    use super::*;
    use std::io::{ErrorKind, Write};
    use std::test::Fail;

    #[test]
    fn all_of_a_reader_is_read(rt: HostRuntime) -> Result<(), Fail> {
        let mut reader: &[u8] = b"two\nlines\n";
        let bytes = read_all(rt.alloc(), &mut reader)?;
        assert!(rt; bytes.as_slice() == b"two\nlines\n".as_slice());
        let more = read_all(rt.alloc(), &mut reader)?;
        assert!(rt; more.is_empty());
        Ok(())
    }

    // Bytes that come three at a time, each time after an interruption.
    #[derive(Drop)]
    struct Trickle<'a> {
        rest: &'a [u8],
        is_ready: bool,
    }

    impl Read for Trickle<'_> {
        fn read(&mut self, buffer: &mut [u8]) -> io::Result<usize> {
            self.is_ready = !self.is_ready;
            if self.is_ready {
                return Err(ErrorKind::Interrupted.into());
            }
            let room = buffer.len().min(3);
            self.rest.read(&mut buffer[..room])
        }
    }

    #[test]
    fn no_more_is_taken_than_is_read(rt: HostRuntime) -> Result<(), Fail> {
        let mut reader: &[u8] = b"two\nlines\n";
        let bytes = read_most(rt.alloc(), &mut reader, 5)?;
        assert!(rt; bytes.as_slice() == b"two\nl".as_slice());
        assert!(rt; reader == b"ines\n".as_slice());
        let rest = read_most(rt.alloc(), &mut reader, 6)?;
        assert!(rt; rest.as_slice() == b"ines\n".as_slice());
        assert!(rt; reader.is_empty());
        Ok(())
    }

    #[test]
    fn reading_goes_on_after_an_interruption(rt: HostRuntime) -> Result<(), Fail> {
        let mut reader = Trickle {
            rest: b"two\nlines\n",
            is_ready: false,
        };
        let bytes = read_most(rt.alloc(), &mut reader, 8)?;
        assert!(rt; bytes.as_slice() == b"two\nline".as_slice());
        assert!(rt; reader.rest == b"s\n".as_slice());
        let rest = read_most(rt.alloc(), &mut reader, 8)?;
        assert!(rt; rest.as_slice() == b"s\n".as_slice());
        Ok(())
    }

    // Takes two bytes at a time, each time after an interruption, and no more than it has room for.
    #[derive(Drop)]
    struct Narrow {
        bytes: Vec<u8>,
        room: usize,
        is_ready: bool,
    }

    impl Write for Narrow {
        fn write(&mut self, buffer: &[u8]) -> io::Result<usize> {
            self.is_ready = !self.is_ready;
            if self.is_ready {
                return Err(ErrorKind::Interrupted.into());
            }
            let taken = buffer.len().min(2).min(self.room);
            self.bytes.extend_from_slice(&buffer[..taken])?;
            self.room -= taken;
            Ok(taken)
        }

        fn flush(&mut self) -> io::Result<()> {
            Ok(())
        }
    }

    #[test]
    fn a_text_is_written_piece_by_piece(rt: HostRuntime) -> Result<(), Fail> {
        let mut writer = Narrow {
            bytes: Vec::new(rt.alloc()),
            room: 8,
            is_ready: false,
        };
        write_text(&mut writer, b"lines")?;
        assert!(rt; writer.bytes.as_slice() == b"lines".as_slice());
        let more = write_text(&mut writer, b"more");
        assert!(rt; more.is_err_and(|error| error.kind() == ErrorKind::WriteZero));
        assert!(rt; writer.bytes.as_slice() == b"linesmor".as_slice());
        write_text(&mut writer, b"")?;
        Ok(())
    }

    #[test]
    fn numbers_are_read_or_another_stands(rt: HostRuntime) -> Result<(), Fail> {
        let heap = rt.alloc();
        assert_eq!(rt; number_or(Some(String::from_str(heap, "3000")?), 7), 3000);
        assert_eq!(rt;
            number_or(Some(String::from_str(heap, "4294967295")?), 7),
            4294967295
        );
        assert_eq!(rt;
            number_or(Some(String::from_str(heap, "4294967296")?), 7),
            7
        );
        assert_eq!(rt; number_or(Some(String::from_str(heap, "ten")?), 7), 7);
        assert_eq!(rt; number_or(None, 7), 7);
        Ok(())
    }
}
