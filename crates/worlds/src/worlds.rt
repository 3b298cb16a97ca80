ghost use Rattle.std.specs.Prelude.{◌≡◌, ◌&&◌, Some, ◌==◌};
ghost use Rattle.ceiling.specs.Programs.{offers, opening};
ghost use Rattle.program.specs.Program as table;
ghost use Rattle.program.specs.Program.{within};
ghost use Rattle.program.specs.Tables.{program};
ghost use Rattle.worlds.specs.Places.{beginning};
ghost use Rattle.worlds.specs.Worlds.{label_in, over, places_of, world, Made, StandsAs};

use super::places::Place;
use super::records::{Record, Unmade};
use super::standing::Standing;
use ceiling::Move;
use memory::{Memory, Shape};
use program::Table;

// A memory, and where each process of a table stands in it; place 0 belongs to no process.
#[derive(Drop)]
pub struct World<M> {
    pub(crate) memory: M,
    pub(crate) places: [Place; 5],
}

// Every process at label 1, with registers 0.
fn beginnings() -> [Place; 5]
    ensures { places_of result ≡ (λ p. beginning) }
{
    [Place {
        label: 1,
        registers: [0; 4],
    }; 5]
}

impl<M: Memory> World<M> {
    // A world over the memory as it stands, with every process at its beginning.
    pub fn new(memory: M) -> Self
        ensures { world M.config result ≡ record { config = M.config memory; places = λ p. beginning } }
    {
        World {
            memory,
            places: beginnings(),
        }
    }

    // Goes to the start of the runs of any table.
    pub fn start(&mut self, shape: Shape)
        ensures { (t : table.Program) → world M.config self.new ≡ opening M.machine (over t) shape }
    {
        self.memory.start(shape);
        self.places = beginnings();
    }

    // Where a process stands, if there is such a process.
    fn standing(&self, table: &Table, process: u8) -> Option<Standing>
        ensures { StandsAs (program table.now) (places_of self.now.places) process result }
    {
        let place = *self.places.get(usize::from(process))?;
        let instruction = table.instruction(process, place.label)?;
        Some(Standing {
            place,
            instruction,
            values: table.counts().values,
        })
    }

    // The label at which a process stands, if there is such a process.
    pub fn label(&self, table: &Table, process: u8) -> Option<u8>
        ensures { result ≡ label_in (program table.now) (world M.config self.now).places process }
    {
        let place = self.places.get(usize::from(process))?;
        (1..=table.counts().processes)
            .contains(&process)
            .then_some(place.label)
    }

    // Whether a process stands at a label; no table has other processes than 1 to 4.
    pub fn stands_at(&self, process: u8, label: u8) -> bool
        ensures { result ≡ (within 1 4 process && ((world M.config self.now).places process).label == label) }
    {
        (1..=4).contains(&process) && self.places[usize::from(process)].label == label
    }

    // How many choices a process has where it stands.
    pub fn choices(&self, table: &Table, process: u8) -> usize
        ensures { result ≡ offers M.machine (over (program table.now)) (world M.config self.now) process }
    {
        match self
            .standing(table, process)
            .and_then(|standing| standing.action())
        {
            Some(action) => self.memory.offers(process, action),
            None => 0,
        }
    }

    // Makes a move and tells it as a step of the run, or refuses and remains.
    pub fn make(&mut self, table: &Table, step: Move) -> Result<Record, Unmade>
        ensures { Made M.machine (program table.now) (world M.config self.old) step (world M.config self.new) result }
    {
        let standing = self.standing(table, step.process).ok_or(Unmade::NoMove)?;
        let action = standing.action().ok_or(Unmade::NoMove)?;
        let seen = self.memory.take(step.process, action, step.choice)?;
        self.places[usize::from(step.process)] = standing.after(seen.value);
        Ok(Record {
            process: step.process,
            label: standing.place.label,
            choice: step.choice,
            value: standing.shown(seen.value),
            switch: seen.switch,
        })
    }
}
