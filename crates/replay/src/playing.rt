ghost use Rattle.std.specs.Prelude.{◌≡◌, ◌≤◌, true, length, IfOk};
ghost use Rattle.ceiling.specs.Programs.{opening};
ghost use Rattle.program.specs.Tables.{program};
ghost use Rattle.worlds.specs.Worlds.{label_in, over, world as stand};
ghost use Rattle.replay.specs.Playing.{is_label, lines_played, played};
ghost use Rattle.replay.specs.Turns.{allowed, judged, Stepped, Turned};
ghost use Rattle.replay.specs.Written.{Says};

use super::faults::{AtLine, Fault, Played};
use arrayvec::ArrayVec;
use ceiling::Move;
use memory::Memory;
use program::{Table, read_lines};
use runs::{MOST_STEPS, Question};
use worlds::{Record, World};

// What a line is judged by: the table and the question, its number, and the switches before it.
#[derive(Clone, Copy)]
struct Turn<'a> {
    table: &'a Table,
    question: Question,
    line: u8,
    switches: u8,
    ghost few: { switches ≤ 24 },
}

impl<'a> Turn<'a> {
    // Whether there is such a process, and it stands at the label.
    fn stands<M: Memory>(&self, world: &World<M>, process: u16, label: u16) -> bool
        ensures value { result ≡ is_label (label_in (program self.now.table.now) (stand M.config world.now).places process) label }
        ensures bound { result ≡ true → process ≤ 255 }
    {
        match u8::try_from(process) {
            Ok(process) => world.label(self.table, process).map(u16::from) == Some(label),
            Err(_) => false,
        }
    }

    // Makes a move of the line.
    fn make<M: Memory>(&self, world: &mut World<M>, step: Move) -> Result<Record, Fault>
        ensures { Stepped M.machine (program self.now.table.now) (stand M.config world.old) self.now.line step (stand M.config world.new) result }
    {
        let line = self.line;
        let made = world
            .make(self.table, step)
            .map_err(|why| AtLine { line, why })?;
        Ok(made)
    }

    // Whether the line, and so many switches after it, are within the bounds.
    fn allows(&self, switches: u8) -> bool
        ensures value { result ≡ allowed self.now.question self.now.line switches }
        ensures bound { result ≡ true → switches ≤ 24 }
    {
        self.line <= self.question.steps && switches <= self.question.switches
    }

    // Whether the step that was made is the line's, and within the bounds; answers the switches after it.
    fn judge(&self, made: Record, value: u16, mark: u16) -> Result<u8, Fault>
        ensures value { result ≡ judged self.now.question self.now.line self.now.switches made value mark }
        ensures bound { IfOk result (λ switches. switches ≤ 24) }
    {
        let line = self.line;
        if value != u16::from(made.value) || mark != u16::from(made.switch) {
            return Err(Fault::Seen { line });
        }
        let switches = self.switches + u8::from(made.switch);
        if !self.allows(switches) {
            return Err(Fault::Bounds { line });
        }
        Ok(switches)
    }

    // Makes the move of a line, and answers the switches after it.
    fn play<M: Memory>(&self, world: &mut World<M>, numbers: [u16; 6]) -> Result<u8, Fault>
        ensures value { Turned M.machine (program self.now.table.now) self.now.question (stand M.config world.old) self.now.line self.now.switches numbers (stand M.config world.new) result }
        ensures bound { IfOk result (λ switches. switches ≤ 24) }
    {
        let [number, process, label, choice, value, mark] = numbers;
        let line = self.line;
        if number != u16::from(line) {
            return Err(Fault::Number { line });
        }
        if !self.stands(world, process, label) {
            return Err(Fault::Process { line });
        }
        // It is the number of a process: the cast keeps it, and `try_from` would add an error.
        let next = Move {
            process: process as u8,
            choice: usize::from(choice),
        };
        let made = self.make(world, next)?;
        self.judge(made, value, mark)
    }
}

// Goes to the start and plays the lines of a run.
fn play<M: Memory>(
    world: &mut World<M>,
    table: &Table,
    question: Question,
    lines: &[[u16; 6]],
) -> Result<Played, Fault>
    requires { length lines.now ≤ 24 }
    ensures { result ≡ lines_played M.machine (program table.now) question (opening M.machine (over (program table.now)) question.shape) 1 0 lines.now }
{
    world.start(question.shape);
    // At most 24 lines: the casts keep their numbers, and `try_from` would add an error.
    let mut switches = 0;
    for (i, numbers) in lines.iter().enumerate() {
        let turn = Turn {
            table,
            question,
            line: (i + 1) as u8,
            switches,
        };
        switches = turn.play(world, *numbers)?;
    }
    let steps = lines.len() as u8;
    if question.is_reached(world) {
        Ok(Played { steps, switches })
    } else {
        Err(Fault::Targets { lines: steps })
    }
}

// Plays a run's text from the start: reads all its lines, makes their moves, and accepts the run or tells what is wrong
// with the text first.
pub fn replay<M: Memory>(
    world: &mut World<M>,
    table: &Table,
    question: Question,
    text: &[u8],
) -> Result<Played, Fault>
    ensures value { result ≡ played M.machine (program table.now) question text.now }
    ensures words { Says M.machine (program table.now) question text.now result }
{
    let mut all = ArrayVec::<_, MOST_STEPS>::new();
    read_lines(text, 0, &mut all)?;
    play(world, table, question, &all)
}
