ghost use Rattle.std.specs.Prelude.{◌≡◌, ◌+◌, ◌<◌, ◌≤◌, [], ◌∷◌, ◌++◌, length};
ghost use Rattle.ceiling.specs.Programs.{event, next as successor, offers};
ghost use Rattle.program.specs.Tables.{program};
ghost use Rattle.worlds.specs.Worlds.{over, world as stand};
ghost use Rattle.runs.specs.Cursors.{Goes, GoesOn, IsPath, Regained, Sound, StandsAt, WentBack};
ghost use Rattle.runs.specs.Paths.{path};
ghost use Rattle.runs.specs.Runs.{below, branch, choices, onward, processes};

use super::cursors::Cursor;
use super::questions::Question;
use ceiling::Move;
use memory::Memory;
use program::Table;
use worlds::World;

// Makes a move that is offered, and tells whether it is a switch.
fn step<M: Memory>(world: &mut World<M>, table: &Table, last: Move) -> bool
    requires { last.choice < offers M.machine (over (program table.now)) (stand M.config world.old) last.process }
    ensures next { stand M.config world.new ≡ successor M.machine (over (program table.now)) (stand M.config world.old) last }
    ensures mark { result ≡ (event M.machine (over (program table.now)) (stand M.config world.old) last).mark }
{
    match world.make(table, last) {
        Ok(made) => made.switch,
        Err(_) => unreachable(),
    }
}

// Starts again and makes the moves; answers the switches that are left, or None where one of them is not offered.
pub(crate) fn regain<M: Memory>(
    world: &mut World<M>,
    table: &Table,
    question: Question,
    moves: &[Move],
) -> Option<u8>
    ensures { Regained M.machine (program table.now) question (stand M.config world.new) moves.now result }
{
    world.start(question.shape);
    let mut room = question.switches;
    for next in moves {
        let Ok(made) = world.make(table, *next) else {
            return None;
        };
        room = room.saturating_sub(u8::from(made.switch));
    }
    Some(room)
}

impl<M: Memory> Cursor<M> {
    // Goes to the end of the cursor's run again, from the start.
    fn again(&mut self, table: &Table, question: Question)
        requires { IsPath M.machine (program table.now) question (path self.old.run) }
        ensures run { self.new.run ≡ self.old.run }
        ensures here { StandsAt M.machine (program table.now) question (stand M.config self.new.world) self.new.room (path self.new.run) }
    {
        match regain(&mut self.world, table, question, self.run.moves()) {
            Some(room) => self.room = room,
            None => unreachable(),
        }
    }

    // Makes the move if it stays within the switches; else goes back.
    fn enter(&mut self, table: &Table, question: Question, last: Move) -> bool
        requires left { length (path self.old.run) < question.steps }
        requires offered { last.choice < offers M.machine (over (program table.now)) (stand M.config self.old.world) last.process }
        requires sound { Sound M.machine (program table.now) question M.config self.old }
        ensures sound { Sound M.machine (program table.now) question M.config self.new }
        ensures goes { Goes M.machine (program table.now) question (λ S x. onward S x last.process last.choice) (λ S x. branch S x last.process last.choice) self.old.run self.new.run result }
    {
        let switch = u8::from(step(&mut self.world, table, last));
        if switch > self.room {
            self.again(table, question);
            return false;
        }
        self.room -= switch;
        self.run.push(last);
        true
    }

    // Makes the first of the process's choices from this one on that stays within the switches.
    fn choose(&mut self, table: &Table, question: Question, process: u8, from: usize) -> bool
        requires left { length (path self.old.run) < question.steps }
        requires sound { Sound M.machine (program table.now) question M.config self.old }
        ensures sound { Sound M.machine (program table.now) question M.config self.new }
        ensures goes { Goes M.machine (program table.now) question (λ S x. onward S x process from) (λ S x. choices S x process from) self.old.run self.new.run result }
    {
        for choice in from..self.world.choices(table, process) {
            if self.enter(table, question, Move { process, choice }) {
                return true;
            }
        }
        false
    }

    // Makes the first move that stays within the switches of the processes above this one.
    fn sweep(&mut self, table: &Table, question: Question, above: u8) -> bool
        requires left { length (path self.old.run) < question.steps }
        requires sound { Sound M.machine (program table.now) question M.config self.old }
        ensures sound { Sound M.machine (program table.now) question M.config self.new }
        ensures goes { Goes M.machine (program table.now) question (λ S x. processes S x (above + 1)) (λ S x. processes S x (above + 1)) self.old.run self.new.run result }
    {
        for below in above..table.counts().processes {
            if self.choose(table, question, below + 1, 0) {
                return true;
            }
        }
        false
    }

    // Goes to the first run that goes on from here.
    fn descend(&mut self, table: &Table, question: Question) -> bool
        requires sound { Sound M.machine (program table.now) question M.config self.old }
        ensures sound { Sound M.machine (program table.now) question M.config self.new }
        ensures goes { Goes M.machine (program table.now) question (λ S x. below S x) (λ S x. below S x) self.old.run self.new.run result }
    {
        self.run.moves().len() < usize::from(question.steps) && self.sweep(table, question, 0)
    }

    // Goes to the first run after those that go on by the move `last`, made here.
    fn resume(&mut self, table: &Table, question: Question, last: Move) -> bool
        requires left { length (path self.old.run) < question.steps }
        requires offered { last.choice < offers M.machine (over (program table.now)) (stand M.config self.old.world) last.process }
        requires sound { Sound M.machine (program table.now) question M.config self.old }
        ensures sound { Sound M.machine (program table.now) question M.config self.new }
        ensures goes { Goes M.machine (program table.now) question (λ S x. onward S x last.process (last.choice + 1)) (λ S x. onward S x last.process (last.choice + 1)) self.old.run self.new.run result }
    {
        self.choose(table, question, last.process, last.choice + 1)
            || self.sweep(table, question, last.process)
    }

    // Takes the last move off, and answers it.
    fn back(&mut self, table: &Table, question: Question) -> Option<Move>
        requires sound { Sound M.machine (program table.now) question M.config self.old }
        ensures { WentBack M.machine (program table.now) question M.config self.old self.new result }
    {
        let last = self.run.pop()?;
        self.again(table, question);
        Some(last)
    }

    // Goes to the next run of the list; false where the last was passed.
    pub(crate) fn advance(&mut self, table: &Table, question: Question) -> bool
        requires sound { Sound M.machine (program table.now) question M.config self.old }
        ensures sound { Sound M.machine (program table.now) question M.config self.new }
        ensures next { GoesOn M.machine (program table.now) question self.old.run self.new.run result }
    {
        if self.descend(table, question) {
            return true;
        }
        while let Some(last) = self.back(table, question) {
            if self.resume(table, question, last) {
                return true;
            }
        }
        false
    }
}
