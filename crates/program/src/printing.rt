// Instructions and refusals as they are printed.

ghost use Rattle.std.specs.Prelude.{Some};
ghost use Rattle.program.specs.Words.{instruction_words, reason};

use super::refusals::Refusal;
use super::rows::Instruction;
use std::error::Error;
use std::fmt;

// As a programmer would write it: registers are r1, r2 .., variables x1, x2 ..
impl fmt::Display for Instruction {
    ghost output = { λ i. Some (instruction_words i) };

    fn fmt<W: fmt::Write>(&self, f: &mut fmt::Formatter<W>) -> fmt::Result {
        match *self {
            Instruction::Read { register, variable } => write!(f, "r{register} = x{variable}"),
            Instruction::Write { variable, register } => write!(f, "x{variable} = r{register}"),
            Instruction::Cas { variable, old, new } => write!(
                f,
                "cas x{variable}: r{old} -> r{new}"
            ),
            Instruction::Set { register, constant } => write!(f, "r{register} = {constant}"),
            Instruction::Add {
                register,
                left,
                right,
            } => write!(f, "r{register} = r{left} + r{right}"),
            Instruction::Jeq { left, right, label } => write!(
                f,
                "if r{left} == r{right} goto {label}"
            ),
            Instruction::Assume { left, right } => write!(f, "assume r{left} == r{right}"),
            Instruction::Fence => write!(f, "fence"),
            Instruction::Term => write!(f, "term"),
        }
    }
}

// What is wrong with a text, and where.
impl fmt::Display for Refusal {
    ghost output = { λ r. Some (reason r) };

    fn fmt<W: fmt::Write>(&self, f: &mut fmt::Formatter<W>) -> fmt::Result {
        match *self {
            Refusal::Length => write!(f, "the length is not that of 2 to 129 lines of 25 bytes"),
            Refusal::Field { line } => write!(f, "line {line} has a wrong field or a wrong end"),
            Refusal::Header => {
                write!(
                    f,
                    "line 1 has a number outside its limits, or does not say how many rows follow"
                )
            }
            Refusal::Order { line } => {
                write!(
                    f,
                    "the process and label of line {line} don't follow the row above, or pass a limit"
                )
            }
            Refusal::Operand { line } => {
                write!(
                    f,
                    "line {line} has no such instruction, or an operand outside its range"
                )
            }
            Refusal::NoTerm { line } => {
                write!(
                    f,
                    "line {line} is the last row of its process, and is not TERM"
                )
            }
            Refusal::NoProcess { line } => {
                write!(f, "the rows end at line {line}, before the last process")
            }
        }
    }
}

impl Error for Refusal {}
