// What is printed for an input.

ghost use Rattle.std.specs.Prelude.{◌≡◌, ◌++◌, IfOk, OnOk, string_bytes};
ghost use Rattle.memory.specs.Fences.{fenced};
ghost use Rattle.program.specs.Refusals.{notice};
ghost use Rattle.program.specs.Tables.{program};
ghost use Rattle.program.specs.Words.{reason};
ghost use Rattle.replay.specs.Playing.{played};
ghost use Rattle.runs.specs.Asked.{judged};
ghost use Rattle.player.specs.Answers.{Answered, Asked, refused, steps_words, told};

use super::endings::{Ending, lines_before};
use super::inputs::cut;
use super::steps::Step;
use memory::{Fences, Kind, Memory, ReleaseAcquire, Sequential};
use notice::Notice;
use program::{LINE, Refusal, Table};
use replay::{Fault, Played, replay};
use runs::{Question, Wish, read_question};
use std::alloc::{AllocError, Global};
use std::fmt::Write;
use text::read_line;
use worlds::World;

// A line for each step.
fn tell_steps(told: &mut String, table: &Table, lines: &[[u8; LINE]]) -> Result<(), AllocError>
    ensures { OnOk result (string_bytes told.new ≡ string_bytes told.old ++ steps_words (program table.now) lines.now) }
{
    for line in lines {
        if let Some(numbers) = read_line::<6>(line) {
            let step = Step { table, numbers };
            write!(told, "{step}")?;
        }
    }
    Ok(())
}

// A line for each step that was played, and then what came of the run.
fn tell(
    heap: Global,
    table: &Table,
    run: &[u8],
    outcome: Result<Played, Fault>,
) -> Result<String, AllocError>
    ensures { IfOk result (λ s. string_bytes s ≡ told (program table.now) run.now outcome) }
{
    let mut told = String::new(heap);
    let (lines, _) = run.as_chunks::<LINE>();
    tell_steps(
        &mut told,
        table,
        &lines[..lines_before(outcome).min(lines.len())],
    )?;
    let ending = Ending(outcome);
    write!(told, "{ending}")?;
    Ok(told)
}

// Plays over a memory with fences.
fn play_over<M: Memory + Drop>(
    below: M,
    heap: Global,
    table: &Table,
    question: Question,
    run: &[u8],
) -> Result<String, AllocError>
    ensures { IfOk result (λ s. string_bytes s ≡ told (program table.now) run.now (played (fenced M.machine) (program table.now) question run.now)) }
{
    let outcome = replay(&mut World::new(Fences { below }), table, question, run);
    tell(heap, table, run, outcome)
}

// Asks the question of a table that was read. The memories are types and no `dyn`: a memory has a constant, its widest
// offer.
fn ask(heap: Global, table: &Table, wish: Wish, run: &[u8]) -> Result<String, AllocError>
    ensures { IfOk result (λ s. Asked wish (program table.now) run.now (string_bytes s) (judged (program table.now) wish.steps wish.switches wish.targets)) }
{
    match Question::new(table, wish.steps, wish.switches, wish.targets) {
        Ok(question) => match wish.memory {
            Kind::Sequential => {
                let below = Sequential::new(question.shape);
                play_over(below, heap, table, question, run)
            }
            Kind::ReleaseAcquire => {
                let below = ReleaseAcquire::new(question.shape);
                play_over(below, heap, table, question, run)
            }
        },
        Err(why) => {
            let number = Notice::from(why).number;
            format!(in heap; "refused ({number}): {why}\n")
        }
    }
}

// Why a table is not read.
fn tell_table(heap: Global, refusal: Refusal) -> Result<String, AllocError>
    ensures { IfOk result (λ s. string_bytes s ≡ refused (notice refusal).number (reason refusal)) }
{
    let number = Notice::from(refusal).number;
    format!(in heap; "refused ({number}): {refusal}\n")
}

pub(crate) fn answer(heap: Global, input: &[u8]) -> Result<String, AllocError>
    ensures { IfOk result (λ s. Answered input.now (string_bytes s)) }
{
    let parts = cut(input);
    let Some(wish) = read_question(parts.question) else {
        return format!(in heap;
            "refused (72): the question line has a wrong field, end or memory\n"
        );
    };
    let mut table = Table::empty();
    match table.read(parts.table) {
        Ok(()) => ask(heap, &table, wish, parts.run),
        Err(refusal) => tell_table(heap, refusal),
    }
}
