// Numbers as they are written: 1 to 4 decimal digits, with no zero in front of another digit.

ghost use Rattle.std.specs.Prelude.{◌≡◌, ◌≤◌, length};
ghost use Rattle.std.specs.Option.{option_map};
ghost use Rattle.steps.specs.Chains.{plain};
ghost use Rattle.steps.specs.Cutting.{word_after};
ghost use Rattle.steps.specs.Numbers.{digits_from, number_of, byte_of};

use super::cutting::word_after;

// The number that digits write, or None where a byte is no digit.
fn digits(text: &[u8]) -> Option<usize>
    requires { length text.now ≤ 4 }
    ensures { result ≡ digits_from 0 text.now }
{
    // A loop and no `try_fold`: the bound on the number goes by how many digits were read.
    let mut number = 0;
    for b in text {
        if !b.is_ascii_digit() {
            return None;
        }
        number = number * 10 + usize::from(*b - b'0');
    }
    Some(number)
}

pub(crate) fn number(word: &[u8]) -> Option<usize>
    ensures { result ≡ number_of word.now }
{
    match word {
        [] | [b'0', _, ..] => None,
        _ if word.len() > 4 => None,
        _ => digits(word),
    }
}

// A number from 0 to 255.
pub(crate) fn byte(word: &[u8]) -> Option<u8>
    ensures { result ≡ byte_of word.now }
{
    u8::try_from(number(word)?).ok()
}

// A number from 0 to 255 after a beginning of the text, and what follows it.
pub(crate) fn byte_after<'a>(text: &'a [u8], start: &[u8]) -> Option<(u8, &'a [u8])>
    ensures { option_map plain result ≡ word_after start.now byte_of text.now }
{
    word_after(text, start, byte)
}
