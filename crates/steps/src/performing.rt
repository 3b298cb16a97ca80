// The lines of the input over a memory.

ghost use Rattle.std.specs.Prelude.{◌≡◌, IfOk, string_bytes};
ghost use Rattle.steps.specs.Answers.{performing};
ghost use Rattle.steps.specs.Outcomes.{no_tally};
ghost use Rattle.steps.specs.Reading.{left_of};

use super::acting::act;
use super::lines::Lines;
use super::outcomes::Tally;
use memory::Memory;
use std::alloc::{AllocError, Global};
use std::fmt::Write;

// Performs the lines until one is refused or wrong, and tells what came of each. The lines after that one
// stand on it, so they are not read.
pub(crate) fn perform<M: Memory>(
    memory: &mut M,
    heap: Global,
    lines: Lines,
) -> Result<String, AllocError>
    ensures { IfOk result (λ s. string_bytes s ≡ performing M.machine (M.config memory.old) no_tally (left_of lines.entry)) }
{
    let mut told = String::new(heap);
    let mut tally = Tally::default();
    for line in lines {
        let number = line.number;
        match act(memory, line.text) {
            Ok(done) => {
                writeln!(told, "line {number}: {done}")?;
                tally = tally.with(done);
            }
            Err(stop) => {
                writeln!(told, "line {number}: {stop}")?;
                break;
            }
        }
    }
    write!(told, "{tally}")?;
    Ok(told)
}
