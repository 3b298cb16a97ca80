// A line over a memory.

ghost use Rattle.std.specs.Prelude.{◌≡◌};
ghost use Rattle.steps.specs.Asking.{take_of};
ghost use Rattle.steps.specs.Outcomes.{outcome_at, config_after, outcome_of, config_of};

use super::asking::read_take;
use super::outcomes::{Done, Stop};
use memory::{Memory, Take};

// Takes a choice, if it is offered.
fn request<M: Memory>(memory: &mut M, take: Take) -> Result<Done, Stop>
    ensures outcome { result ≡ outcome_at M.machine (M.config memory.old) take }
    ensures after { M.config memory.new ≡ config_after M.machine (M.config memory.old) take }
{
    let offered = memory.offers(take.process, take.action);
    let seen = memory
        .take(take.process, take.action, take.choice)
        .map_err(|_| Stop::Refused { take, offered })?;
    Ok(Done {
        take,
        offered,
        seen,
    })
}

// Does what the line asks for.
pub(crate) fn act<M: Memory>(memory: &mut M, line: &[u8]) -> Result<Done, Stop>
    ensures outcome { result ≡ outcome_of M.machine (M.config memory.old) (take_of line.now) }
    ensures after { M.config memory.new ≡ config_of M.machine (M.config memory.old) (take_of line.now) }
{
    request(memory, read_take(line)?)
}
