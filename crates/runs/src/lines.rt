ghost use Rattle.std.specs.Prelude.{◌≡◌, slice_index};
ghost use Rattle.runs.specs.Lines.{filled, is_blank, kind_of, wish_for, wish_of};
ghost use Rattle.runs.specs.QuestionLines.{Says};

use memory::Kind;
use text::read_line;

// What the numbers of a question line wish for: a memory, the bounds and the targets. Whether it can be asked of a
// table is another matter.
#[derive(Clone, Copy)]
pub struct Wish {
    pub memory: Kind,
    pub steps: u16,
    pub switches: u16,
    pub targets: [u16; 4],
}

fn kind(number: u16) -> Option<Kind>
    ensures { result ≡ kind_of number }
{
    match number {
        0 => Some(Kind::Sequential),
        1 => Some(Kind::ReleaseAcquire),
        _ => None,
    }
}

// Whether the third field is four spaces.
fn is_blank(line: &[u8; 29]) -> bool
    ensures { result ≡ is_blank line.now }
{
    line[8..12].iter().all(|byte| *byte == b' ')
}

// Such a field stands for the number 2.
fn filled(mut line: [u8; 29]) -> [u8; 29]
    ensures { result ≡ filled line }
{
    if is_blank(&line) {
        line[11] = b'2';
    }
    line
}

fn wish_from(numbers: [u16; 7]) -> Option<Wish>
    ensures { result ≡ wish_for (kind_of (slice_index numbers 0)) numbers }
{
    let [memory, steps, switches, one, two, three, four] = numbers;
    Some(Wish {
        memory: kind(memory)?,
        steps,
        switches,
        targets: [one, two, three, four],
    })
}

// Reads a question line: seven fields, of which the third may be blank.
pub fn read_question(line: &[u8]) -> Option<Wish>
    ensures value { result ≡ wish_of line.now }
    ensures words { Says line.now result }
{
    if line.len() != 29 {
        return None;
    }
    let mut bytes = [0; 29];
    bytes.copy_from_slice(line);
    wish_from(read_line::<7>(&filled(bytes))?)
}
