// The parts of an input.

ghost use Rattle.std.specs.Prelude.{◌≡◌, ◌+◌, ◌≤◌, true, length, take, drop};
ghost use Rattle.player.specs.Parts.{after_blank, before_blank, question_part, table_part, run_part};

// How many bytes a question line has.
const QUESTION: usize = 29;

// A question line, a table and a written run.
#[derive(Clone, Copy)]
pub struct Parts<'a> {
    pub question: &'a [u8],
    pub table: &'a [u8],
    pub run: &'a [u8],
}

// How many bytes stand before the first empty line.
fn blank(text: &[u8]) -> usize
    ensures bound { result ≤ length text.now }
    ensures before { take result text.now ≡ before_blank true text.now }
    ensures after { drop (result + 1) text.now ≡ after_blank true text.now }
{
    let mut begins = true;
    for (i, byte) in text.iter().enumerate() {
        if begins && *byte == b'\n' {
            return i;
        }
        begins = *byte == b'\n';
    }
    text.len()
}

// Cuts an input after its question line, and then at the first empty line.
pub(crate) fn cut(input: &[u8]) -> Parts<'_>
    ensures question { result.question.now ≡ question_part input.now }
    ensures table { result.table.now ≡ table_part input.now }
    ensures run { result.run.now ≡ run_part input.now }
{
    let (question, rest) = input.split_at(QUESTION.min(input.len()));
    let at = blank(rest);
    Parts {
        question,
        table: &rest[..at],
        run: &rest[(at + 1).min(rest.len())..],
    }
}
