// What a line of the input asks for.

ghost use Rattle.std.specs.Prelude.{◌≡◌, IfOk};
ghost use Rattle.std.specs.Result.{result_map_both as both_mapped};
ghost use Rattle.steps.specs.Chains.{plain, same};
ghost use Rattle.steps.specs.Asking.{verb_of, choice_at, operands_at, action_at, take_of};
ghost use Rattle.steps.specs.Words.{take_words};

use super::cutting::{cut, word_after};
use super::numbers::{byte, byte_after, number};
use super::wrongs::Wrong;
use memory::{Action, Take};

// The names of the actions.
#[derive(Clone, Copy)]
pub enum Verb {
    Local,
    Read,
    Write,
    Swap,
    Fence,
}

fn verb_named(word: &[u8]) -> Option<Verb>
    ensures { result ≡ verb_of word.now }
{
    match word {
        b"local" => Some(Verb::Local),
        b"read" => Some(Verb::Read),
        b"write" => Some(Verb::Write),
        b"swap" => Some(Verb::Swap),
        b"fence" => Some(Verb::Fence),
        _ => None,
    }
}

// The choice ends its line.
fn read_choice(text: &[u8]) -> Option<usize>
    ensures { result ≡ choice_at text.now }
{
    number(text.strip_prefix(b" choice ")?)
}

fn read_write(text: &[u8]) -> Result<(Action, &[u8]), Wrong>
    ensures { both_mapped plain same result ≡ operands_at Verb.Write text.now }
{
    let (variable, rest) = byte_after(text, b" x").ok_or(Wrong::Variable)?;
    let (value, rest) = byte_after(rest, b" ").ok_or(Wrong::Value)?;
    Ok((Action::Write { variable, value }, rest))
}

fn read_swap(text: &[u8]) -> Result<(Action, &[u8]), Wrong>
    ensures { both_mapped plain same result ≡ operands_at Verb.Swap text.now }
{
    let (variable, rest) = byte_after(text, b" x").ok_or(Wrong::Variable)?;
    let (old, rest) = byte_after(rest, b" ").ok_or(Wrong::Value)?;
    let (new, rest) = byte_after(rest, b" ").ok_or(Wrong::Value)?;
    Ok((Action::Swap { variable, old, new }, rest))
}

fn read_action(text: &[u8]) -> Result<(Action, &[u8]), Wrong>
    ensures { both_mapped plain same result ≡ action_at text.now }
{
    let (verb, rest) = word_after(text, b" ", verb_named).ok_or(Wrong::Action)?;
    match verb {
        Verb::Local => Ok((Action::Local, rest)),
        Verb::Read => {
            let (variable, rest) = byte_after(rest, b" x").ok_or(Wrong::Variable)?;
            Ok((Action::Read { variable }, rest))
        }
        Verb::Write => read_write(rest),
        Verb::Swap => read_swap(rest),
        Verb::Fence => Ok((Action::Fence, rest)),
    }
}

// The whole line: the process, the action, the choice. What is printed of them is the line again.
pub(crate) fn read_take(line: &[u8]) -> Result<Take, Wrong>
    ensures value { result ≡ take_of line.now }
    ensures words { IfOk result (λ k. take_words k ≡ line.now) }
{
    let (word, rest) = cut(line, b' ');
    let process = byte(word).ok_or(Wrong::Process)?;
    let (action, rest) = read_action(rest)?;
    let choice = read_choice(rest).ok_or(Wrong::Choice)?;
    Ok(Take {
        process,
        action,
        choice,
    })
}
