// The cases of a batch. A case is a line of two numbers, how many bytes its input has and how many its buffer, and then
// the input.

ghost use Rattle.std.specs.Prelude.{◌≡◌, ◌==◌, ◌≤◌, length};
ghost use Rattle.std.specs.List.{position};
ghost use Rattle.std.specs.Option.{option_map};
ghost use Rattle.sittings.specs.Cases.{BeginsWith, case_of, cut, the_case, the_parts};
ghost use Rattle.sittings.specs.Numerals.{digits_from, number_of};

// The most digits of a number.
const MOST_DIGITS: usize = 9;

// An input, the room of its buffer, and what follows in the batch.
#[derive(Clone, Copy)]
pub(crate) struct Case<'a> {
    pub(crate) input: &'a [u8],
    pub(crate) room: usize,
    pub(crate) rest: &'a [u8],
}

// The number that digits write.
fn digits(word: &[u8]) -> Option<usize>
    requires { length word.now ≤ 9 }
    ensures { result ≡ digits_from 0 word.now }
{
    let mut number = 0;
    for digit in word {
        if !digit.is_ascii_digit() {
            return None;
        }
        number = number * 10 + usize::from(*digit - b'0');
    }
    Some(number)
}

// The number that a word writes.
fn number(word: &[u8]) -> Option<usize>
    ensures { result ≡ number_of word.now }
{
    if !(1..=MOST_DIGITS).contains(&word.len()) {
        return None;
    }
    digits(word)
}

// Where the mark stands first.
fn place(text: &[u8], mark: u8) -> Option<usize>
    ensures { result ≡ position (λ b. b == mark) text.now }
{
    text.iter().position(|byte| *byte == mark)
}

// What stands before the first mark, and what follows it.
fn split(text: &[u8], mark: u8) -> Option<(&[u8], &[u8])>
    ensures { option_map the_parts result ≡ cut mark text.now }
{
    let at = place(text, mark)?;
    Some((&text[..at], &text[at + 1..]))
}

// The case with which a batch begins.
pub(crate) fn first_case(batch: &[u8]) -> Option<Case<'_>>
    ensures value { option_map the_case result ≡ case_of batch.now }
    ensures only { BeginsWith batch.now (option_map the_case result) }
{
    let (length, rest) = split(batch, b' ')?;
    let length = number(length)?;
    let (room, rest) = split(rest, b'\n')?;
    let room = number(room)?;
    let (input, rest) = rest.split_at_checked(length)?;
    Some(Case { input, room, rest })
}
