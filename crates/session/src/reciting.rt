ghost use Rattle.std.specs.Prelude.{◌≡◌, ◌≤◌, length};
ghost use Rattle.ceiling.specs.Programs.{opening};
ghost use Rattle.program.specs.Tables.{program};
ghost use Rattle.worlds.specs.Worlds.{over};
ghost use Rattle.session.specs.Recited.{nth, recited};

use super::steps::Step;
use arrayvec::ArrayVec;
use ceiling::Move;
use memory::{Memory, Shape};
use program::Table;
use runs::MOST_STEPS;
use worlds::{Record, World};

// Makes moves from the start, and tells the steps that they are, as far as they are offered.
pub(crate) fn recite<M: Memory>(
    world: &mut World<M>,
    table: &Table,
    shape: Shape,
    moves: &[Move],
) -> ArrayVec<Record, MOST_STEPS>
    requires { length moves.now ≤ 24 }
    ensures { result.items ≡ recited M.machine (program table.now) (opening M.machine (over (program table.now)) shape) moves.now }
{
    world.start(shape);
    let mut records = ArrayVec::new();
    for next in moves {
        let Ok(step) = world.make(table, *next) else {
            return records;
        };
        records.push(step);
    }
    records
}

// The i-th of some steps, counted from 1.
pub(crate) fn pick(records: &[Record], i: usize) -> Option<Step>
    ensures { result ≡ nth i records.now }
{
    let record = records.get(i.checked_sub(1)?)?;
    Some(Step {
        step: i,
        process: record.process,
        label: record.label,
        choice: record.choice,
        value: record.value,
        switch: record.switch,
    })
}
