// What is printed.

ghost use Rattle.std.specs.Prelude.{◌≡◌, if◌then◌else◌, Some, codes};
ghost use Rattle.steps.specs.Words.{expected, action_words, take_words, done_words, stop_words, failing_words, tally_words};

use super::outcomes::{Done, Stop, Tally};
use super::settings::Failing;
use super::wrongs::Wrong;
use memory::{Action, Take};
use std::fmt;
use wording::Amount;

impl fmt::Display for Wrong {
    ghost output = { λ w. Some (expected w) };

    fn fmt<W: fmt::Write>(&self, f: &mut fmt::Formatter<W>) -> fmt::Result {
        match self {
            Wrong::Memory => write!(f, "the memory is sequential or release-acquire"),
            Wrong::Shape => write!(
                f,
                "a shape is processes 1 to 4, variables 1 to 4, ceiling 0 to 24"
            ),
            Wrong::Process => write!(f, "the process comes first, a number from 0 to 255"),
            Wrong::Action => write!(f, "an action is local, read, write, swap or fence"),
            Wrong::Variable => write!(f, "a variable is x and a number from 0 to 255"),
            Wrong::Value => write!(f, "a value is a number from 0 to 255"),
            Wrong::Choice => write!(f, "the choice comes last, as in choice 0"),
        }
    }
}

// An action as it is written in the input. The type is another crate's, so `Display` cannot be written for it here.
#[derive(Drop)]
struct Asked(Action);

impl fmt::Display for Asked {
    ghost output = { λ a. Some (action_words a.0) };

    fn fmt<W: fmt::Write>(&self, f: &mut fmt::Formatter<W>) -> fmt::Result {
        match self.0 {
            Action::Local => write!(f, "local"),
            Action::Read { variable } => write!(f, "read x{variable}"),
            Action::Write { variable, value } => write!(f, "write x{variable} {value}"),
            Action::Swap { variable, old, new } => write!(f, "swap x{variable} {old} {new}"),
            Action::Fence => write!(f, "fence"),
        }
    }
}

// The whole line as it is written in the input; its type is another crate's too.
#[derive(Drop)]
struct Request(Take);

impl fmt::Display for Request {
    ghost output = { λ q. Some (take_words q.0) };

    fn fmt<W: fmt::Write>(&self, f: &mut fmt::Formatter<W>) -> fmt::Result {
        let process = self.0.process;
        let asked = Asked(self.0.action);
        let choice = self.0.choice;
        write!(f, "{process} {asked} choice {choice}")
    }
}

// What is added of a switch.
fn mark(switch: bool) -> &'static str
    ensures { result.now ≡ (if switch then codes ", a switch" else codes "") }
{
    if switch { ", a switch" } else { "" }
}

impl fmt::Display for Done {
    ghost output = { λ d. Some (done_words d) };

    fn fmt<W: fmt::Write>(&self, f: &mut fmt::Formatter<W>) -> fmt::Result {
        let request = Request(self.take);
        let offered = self.offered;
        let value = self.seen.value;
        let mark = mark(self.seen.switch);
        write!(f, "{request}: {offered} offered, saw {value}{mark}")
    }
}

impl fmt::Display for Stop {
    ghost output = { λ s. Some (stop_words s) };

    fn fmt<W: fmt::Write>(&self, f: &mut fmt::Formatter<W>) -> fmt::Result {
        match *self {
            Stop::Refused { take, offered } => {
                let request = Request(take);
                write!(f, "{request}: refused, {offered} offered")
            }
            Stop::Wrong(wrong) => write!(f, "wrong: {wrong}"),
        }
    }
}

impl fmt::Display for Failing {
    ghost output = { λ x. Some (failing_words x) };

    fn fmt<W: fmt::Write>(&self, f: &mut fmt::Formatter<W>) -> fmt::Result {
        match *self {
            Failing::NoMemory => writeln!(f, "wrong: the input ends before a memory is named"),
            Failing::NoShape => writeln!(f, "wrong: the input ends before a shape is given"),
            Failing::At { line, wrong } => writeln!(f, "line {line}: wrong: {wrong}"),
        }
    }
}

// The last line.
impl fmt::Display for Tally {
    ghost output = { λ t. Some (tally_words t) };

    fn fmt<W: fmt::Write>(&self, f: &mut fmt::Formatter<W>) -> fmt::Result {
        let actions = Amount::new(self.performed, "action", "actions");
        let switches = Amount::new(self.switches, "switch", "switches");
        writeln!(f, "{actions} performed, {switches}")
    }
}
