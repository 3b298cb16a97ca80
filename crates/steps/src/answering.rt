// What is printed for an input.

ghost use Rattle.std.specs.Prelude.{◌≡◌, IfOk, string_bytes};
ghost use Rattle.memory.specs.Fences.{fenced};
ghost use Rattle.steps.specs.Answers.{performing, answered};
ghost use Rattle.steps.specs.Outcomes.{no_tally};
ghost use Rattle.steps.specs.Reading.{left_of};

use super::lines::Lines;
use super::outcomes::Tally;
use super::performing::perform;
use super::settings::read_setting;
use memory::{Fences, Kind, Memory, ReleaseAcquire, Sequential};
use std::alloc::{AllocError, Global};

// Performs the lines over a memory with fences.
fn perform_fenced<M: Memory + Drop>(
    below: M,
    heap: Global,
    lines: Lines,
) -> Result<String, AllocError>
    ensures { IfOk result (λ s. string_bytes s ≡ performing (fenced M.machine) (M.config below) no_tally (left_of lines.entry)) }
{
    perform(&mut Fences { below }, heap, lines)
}

// The memories are types and no `dyn`: a memory has a constant, its widest offer.
pub(crate) fn answer(heap: Global, text: &[u8]) -> Result<String, AllocError>
    ensures { IfOk result (λ s. string_bytes s ≡ answered text.now) }
{
    let mut lines = Lines::new(text);
    match read_setting(&mut lines) {
        Ok(setting) => match setting.kind {
            Kind::Sequential => perform_fenced(Sequential::new(setting.shape), heap, lines),
            Kind::ReleaseAcquire => perform_fenced(ReleaseAcquire::new(setting.shape), heap, lines),
        },
        Err(failing) => {
            let tally = Tally::default();
            format!(in heap; "{failing}{tally}")
        }
    }
}
