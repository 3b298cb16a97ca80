ghost use Rattle.std.specs.Prelude.{◌≡◌, ◌||◌, true, cond, Ok, Err, IfOk, ◌==◌, nat_le};
ghost use Rattle.ceiling.specs.Ceiling.{LosesNothing};
ghost use Rattle.program.specs.Program.{labels_of, within};
ghost use Rattle.program.specs.Reading.{then_do};
ghost use Rattle.program.specs.Tables.{program};
ghost use Rattle.worlds.specs.Worlds.{over, world as stand};
ghost use Rattle.runs.specs.declared.questions.Unasked.TheVariants as unasked;
ghost use Rattle.runs.specs.Askable.{Judges};
ghost use Rattle.runs.specs.Asked.{arrived, judged, Asks};

use super::questions::{Question, Unasked};
use ceiling::shape_for;
use memory::Memory;
use program::Table;
use worlds::{Place, World};

// A bound that is at most 24; behind the test the cast keeps it.
fn bound(n: u16) -> Result<u8, Unasked>
    ensures { result ≡ cond (nat_le n 24) (Ok n) (Err unasked.Bounds) }
{
    if n <= 24 {
        Ok(n as u8)
    } else {
        Err(Unasked::Bounds)
    }
}

// A target that is one of the labels of the process, or 0; a process above the table's has none.
fn aim(table: &Table, process: u8, target: u16) -> Result<u8, Unasked>
    ensures { result ≡ cond (nat_le target (labels_of (program table.now).rows process)) (Ok target) (Err (unasked.Target process)) }
{
    if target <= u16::from(table.labels(process)) {
        Ok(target as u8)
    } else {
        Err(Unasked::Target { process })
    }
}

// Whether a process has no target, or stands at it.
fn is_met<M: Memory>(world: &World<M>, process: u8, target: u8) -> bool
    requires { within 1 4 process ≡ true }
    ensures { result ≡ (target == 0 || ((stand M.config world.now).places process).label == target) }
{
    target == 0 || world.stands_at(process, target)
}

impl Question {
    // What is looked at, one after the other.
    fn judge(
        table: &Table,
        steps: u16,
        switches: u16,
        targets: [u16; 4],
    ) -> Result<Question, Unasked>
        ensures outcome { then_do result (λ q. Ok tt) ≡ judged (program table.now) steps switches targets }
        ensures asks { IfOk result (λ q. Asks (program table.now) steps switches targets q) }
        ensures enough { IfOk result (λ q. LosesNothing q.shape (over (program table.now)) q.steps) }
    {
        if table.is_empty() {
            return Err(Unasked::NoTable);
        }
        let steps = bound(steps)?;
        let switches = bound(switches)?;
        let [one, two, three, four] = targets;
        let targets = [
            aim(table, 1, one)?,
            aim(table, 2, two)?,
            aim(table, 3, three)?,
            aim(table, 4, four)?,
        ];
        let counts = table.counts();
        match shape_for::<Place>(counts.processes, counts.variables, steps) {
            Some(shape) => Ok(Question {
                shape,
                steps,
                switches,
                targets,
            }),
            None => unreachable(),
        }
    }

    // The question for runs of at most so many steps and switches to these targets, one for each process from 1 on;
    // or the first reason why it cannot be asked.
    pub fn new(
        table: &Table,
        steps: u16,
        switches: u16,
        targets: [u16; 4],
    ) -> Result<Question, Unasked>
        ensures outcome { then_do result (λ q. Ok tt) ≡ judged (program table.now) steps switches targets }
        ensures words { Judges (program table.now) steps switches targets result }
        ensures asks { IfOk result (λ q. Asks (program table.now) steps switches targets q) }
        ensures enough { IfOk result (λ q. LosesNothing q.shape (over (program table.now)) q.steps) }
    {
        Question::judge(table, steps, switches, targets)
    }

    // Whether each process with a target stands at it.
    pub fn is_reached<M: Memory>(&self, world: &World<M>) -> bool
        ensures { result ≡ arrived self.now (stand M.config world.now) }
    {
        let [one, two, three, four] = self.targets;
        is_met(world, 1, one)
            && is_met(world, 2, two)
            && is_met(world, 3, three)
            && is_met(world, 4, four)
    }
}
