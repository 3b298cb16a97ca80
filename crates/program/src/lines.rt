ghost use Rattle.std.specs.Prelude.{◌≡◌, ◌≤◌, min, [], length, Ok, IfOk, OnErr, OnOk};
ghost use Rattle.arrayvec.specs.ArrayVec.{array_vec_len};
ghost use Rattle.program.specs.declared.lines.Unread.TheVariants.{Length, Field};
ghost use Rattle.program.specs.Reading.{count_or, lines, lines_or, then_do};

use arrayvec::ArrayVec;
use text::read_line;

// How many bytes a line of six fields has.
pub const LINE: usize = 25;

// Why a text is not read as lines of six fields. Lines count from 1.
#[derive(Clone, Copy, Debug, PartialEq, Eq)]
pub enum Unread {
    // The length is not that of an allowed number of lines.
    Length,
    // A field or the end of the line is wrong.
    Field { line: u8 },
}

// The lines of a text.
fn cut(text: &[u8], least: usize, most: usize) -> Result<&[[u8; LINE]], Unread>
    ensures value { then_do result (λ cut. Ok cut.now) ≡ then_do (count_or least most Length text.now) (λ n. Ok (lines n text.now)) }
    ensures least { IfOk result (λ cut. least ≤ length cut.now) }
    ensures most { IfOk result (λ cut. length cut.now ≤ most) }
{
    match text.as_chunks::<LINE>() {
        (lines, []) if (least..=most).contains(&lines.len()) => Ok(lines),
        _ => Err(Unread::Length),
    }
}

// Puts the numbers of each line of a text into an empty vector.
fn fill<const MOST: usize>(
    text: &[u8],
    least: usize,
    all: &mut ArrayVec<[u16; 6], MOST>,
) -> Result<(), Unread>
    requires { all.old.items ≡ [] }
    ensures value { then_do result (λ _. Ok all.new.items) ≡ lines_or least (min MOST 255) Length Field text.now }
    ensures least { OnOk result (least ≤ array_vec_len all.new) }
{
    let most = MOST.min(255);
    for (i, line) in cut(text, least, most)?.iter().enumerate() {
        // A `match`, and no `ok_or` with `?`: on the way through a result the numbers would be put together again from parts,
        // since they share its bytes with the error's, which made reading a long table up to a third slower.
        match read_line::<6>(line) {
            Some(numbers) => all.push(numbers),
            None => {
                return Err(Unread::Field {
                    line: (i + 1) as u8,
                });
            }
        }
    }
    Ok(())
}

// Puts the numbers of each line of a text into a vector, in the place of what it holds; a refusal leaves it empty. There
// may be as few lines as said and as many as the vector has room for, but no more than 255, since a byte tells which
// line is wrong. The vector is lent: handed out by value it is copied twice, which makes reading a twentieth slower.
pub fn read_lines<const MOST: usize>(
    text: &[u8],
    least: usize,
    all: &mut ArrayVec<[u16; 6], MOST>,
) -> Result<(), Unread>
    ensures value { then_do result (λ _. Ok all.new.items) ≡ lines_or least (min MOST 255) Length Field text.now }
    ensures least { OnOk result (least ≤ array_vec_len all.new) }
    ensures refused { OnErr result (all.new.items ≡ []) }
{
    all.clear();
    let read = fill(text, least, all);
    if read.is_err() {
        all.clear();
    }
    read
}
