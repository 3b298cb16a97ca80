ghost use Rattle.std.specs.Prelude.{◌≡◌, []};
ghost use Rattle.program.specs.Tables.{program};
ghost use Rattle.worlds.specs.Places.{beginning};
ghost use Rattle.worlds.specs.Worlds.{world as stand};
ghost use Rattle.runs.specs.declared.verdicts.Verdict.TheVariants as verdict;
ghost use Rattle.runs.specs.Cursors.{Sound};
ghost use Rattle.runs.specs.Listed.{TotalOrder};
ghost use Rattle.runs.specs.Paths.{path};
ghost use Rattle.runs.specs.Searches.{HasList, Passed, Rests, Since, Told, Works};

use super::cursors::Cursor;
use super::paths::Run;
use super::questions::Question;
use super::searches::Search;
use super::verdicts::{Verdict, Worked};
use super::walking::regain;
use memory::Memory;
use program::Table;
use worlds::World;

impl<M: Memory> Cursor<M> {
    // A cursor over the memory as it stands; every search starts the memory again.
    pub fn over(memory: M) -> Self
        ensures world { stand M.config result.world ≡ record { config = M.config memory; places = λ p. beginning } }
        ensures run { path result.run ≡ [] }
        ensures room { result.room ≡ 0 }
    {
        Cursor {
            world: World::new(memory),
            run: Run::empty(),
            room: 0,
        }
    }

    // A search for a question about a table, at the first run of the list.
    pub fn begin(&self, table: &Table, question: Question) -> Search
        ensures question { result.question ≡ question }
        ensures undecided { result.verdict ≡ verdict.More }
        ensures run { path result.run ≡ [] }
        ensures since { Since M.machine (program table.now) result 0 0 }
        ensures list { HasList M.machine (program table.now) M.WIDEST question }
        ensures order { TotalOrder }
    {
        Search {
            question,
            verdict: Verdict::More,
            run: Run::empty(),
        }
    }

    // Looks at up to so many runs from the cursor's on.
    fn pass(&mut self, table: &Table, question: Question, effort: u32) -> Worked
        requires { Sound M.machine (program table.now) question M.config self.old }
        ensures sound { Sound M.machine (program table.now) question M.config self.new }
        ensures passed { Passed M.machine (program table.now) question (path self.old.run) effort result (path self.new.run) }
    {
        for looked in 0..effort {
            let units = looked + 1;
            if question.is_reached(&self.world) {
                let verdict = Verdict::Found;
                return Worked { units, verdict };
            }
            if !self.advance(table, question) {
                let verdict = Verdict::None;
                return Worked { units, verdict };
            }
        }
        let units = effort;
        let verdict = Verdict::More;
        Worked { units, verdict }
    }

    // Makes the search's run again, which is not trusted to be one, and passes along the runs from there.
    fn take_up(&mut self, table: &Table, search: &mut Search, effort: u32) -> Worked
        ensures works { Works M.machine (program table.now) search.old effort result search.new }
        ensures rests { Rests M.machine (program table.now) M.config search.old search.new self.old self.new }
    {
        let standing = Worked {
            units: 0,
            verdict: search.verdict,
        };
        if search.verdict != Verdict::More {
            return standing;
        }
        let Some(room) = regain(&mut self.world, table, search.question, search.run.moves()) else {
            return standing;
        };
        self.run = search.run;
        self.room = room;
        let worked = self.pass(table, search.question, effort);
        search.verdict = worked.verdict;
        search.run = self.run;
        worked
    }

    // Looks at up to so many of the next runs of the search, one for each unit, and stops at the first that reaches the
    // targets, or after the last.
    pub fn work(&mut self, table: &Table, search: &mut Search, effort: u32) -> Worked
        ensures works { Works M.machine (program table.now) search.old effort result search.new }
        ensures rests { Rests M.machine (program table.now) M.config search.old search.new self.old self.new }
        ensures told { Told M.machine (program table.now) search.old effort result search.new }
    {
        self.take_up(table, search, effort)
    }
}
