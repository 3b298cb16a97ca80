// What is wrong with a run, as it is printed.

ghost use Rattle.std.specs.Prelude.{Some};
ghost use Rattle.replay.specs.Words.{reason};

use super::faults::Fault;
use std::error::Error;
use std::fmt;

impl fmt::Display for Fault {
    ghost output = { λ f. Some (reason f) };

    fn fmt<W: fmt::Write>(&self, f: &mut fmt::Formatter<W>) -> fmt::Result {
        match *self {
            Fault::Length => write!(f, "the length is not that of 0 to 24 lines of 25 bytes"),
            Fault::Field { line } => write!(f, "line {line} has a wrong field or a wrong end"),
            Fault::Number { line } => write!(f, "line {line} has another step number"),
            Fault::Process { line } => {
                write!(f, "line {line} names no process that stands at its label")
            }
            Fault::NoMove { line } => {
                write!(f, "line {line}: the process has no move there: 0 offered")
            }
            Fault::Choice { line, refused } => {
                let offered = refused.offered;
                write!(
                    f,
                    "line {line} takes a choice that the memory does not offer: {offered} offered"
                )
            }
            Fault::Seen { line } => write!(f, "line {line} has another value or switch mark"),
            Fault::Bounds { line } => {
                write!(f, "line {line} passes the step bound or the switch bound")
            }
            Fault::Targets { lines } => {
                write!(f, "after {lines} lines the targets are not reached")
            }
        }
    }
}

impl Error for Fault {}
