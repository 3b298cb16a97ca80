// What the calls do to what a session holds. They stand apart from the calls, whose laws are proved from what is done,
// wherever that returns.

ghost use Rattle.std.specs.Prelude.{◌≡◌, ◌≤◌, cond, length, Ok, Err, IfOk};
ghost use Rattle.program.specs.Program.{within};
ghost use Rattle.session.specs.declared.refusals.Refusal.TheVariants as refusal;
ghost use Rattle.session.specs.Contents.{content, steps_in};
ghost use Rattle.session.specs.Outcomes.{loaded_in, put_in, replayed_in, reported_in, standing_in, stage_by, stepped_in, worked_in};

use super::reciting::{pick, recite};
use super::refusals::Refusal;
use super::sessions::Session;
use super::standings::{Stage, Standing};
use super::steps::Step;
use super::writing::{lines, write_lines};
use arrayvec::ArrayVec;
use memory::Memory;
use program::LINE;
use replay::{Played, replay};
use runs::{MOST_STEPS, Question, Search, Verdict, Worked};
use worlds::Record;

// The most effort of one work.
const MOST_EFFORT: u32 = 1_000_000;

fn allow(effort: u32) -> Result<(), Refusal>
    ensures { result ≡ cond (within 1 1000000 effort) (Ok tt) (Err refusal.Effort) }
{
    if (1..=MOST_EFFORT).contains(&effort) {
        Ok(())
    } else {
        Err(Refusal::Effort)
    }
}

fn stage(verdict: Verdict) -> Stage
    ensures { result ≡ stage_by verdict }
{
    match verdict {
        Verdict::More => Stage::Open,
        Verdict::Found => Stage::Found,
        Verdict::None => Stage::None,
    }
}

impl<M: Memory> Session<M> {
    pub(crate) fn do_load(&mut self, text: &[u8]) -> Result<(), Refusal>
        ensures { (result, content self.new) ≡ loaded_in (content self.old) text.now }
    {
        self.table.read(text)?;
        self.search = None;
        Ok(())
    }

    pub(crate) fn do_put(
        &mut self,
        steps: u16,
        switches: u16,
        targets: [u16; 4],
    ) -> Result<(), Refusal>
        ensures { (result, content self.new) ≡ put_in (content self.old) steps switches targets }
    {
        let question = Question::new(&self.table, steps, switches, targets)?;
        self.search = Some(self.cursor.begin(&self.table, question));
        Ok(())
    }

    pub(crate) fn do_work(&mut self, effort: u32) -> Result<Worked, Refusal>
        ensures { (result, content self.new) ≡ worked_in M.machine (content self.old) effort }
    {
        let mut search = self.search.ok_or(Refusal::WorkUnasked)?;
        allow(effort)?;
        let worked = self.cursor.work(&self.table, &mut search, effort);
        self.search = Some(search);
        Ok(worked)
    }

    // The steps of the found run; none without one.
    fn records(&mut self) -> ArrayVec<Record, MOST_STEPS>
        ensures steps { result.items ≡ steps_in M.machine (content self.old) }
        ensures kept { content self.new ≡ content self.old }
    {
        match self.search {
            Some(
                Search {
                    verdict: Verdict::Found,
                    question,
                    run,
                },
            ) => recite(
                &mut self.cursor.world,
                &self.table,
                question.shape,
                run.moves(),
            ),
            _ => ArrayVec::new(),
        }
    }

    pub(crate) fn do_standing(&self) -> Standing
        ensures { result ≡ standing_in (content self.now) }
    {
        let (stage, steps) = match self.search {
            Some(search) if search.verdict == Verdict::Found => {
                (Stage::Found, search.run.moves().len())
            }
            Some(search) => (stage(search.verdict), 0),
            None if self.table.is_empty() => (Stage::New, 0),
            None => (Stage::Table, 0),
        };
        Standing { stage, steps }
    }

    pub(crate) fn do_step(&mut self, i: usize) -> Option<Step>
        ensures value { result ≡ stepped_in M.machine (content self.old) i }
        ensures kept { content self.new ≡ content self.old }
    {
        pick(&self.records(), i)
    }

    pub(crate) fn do_replay(&mut self, text: &[u8]) -> Result<Played, Refusal>
        ensures value { result ≡ replayed_in M.machine (content self.old) text.now }
        ensures kept { content self.new ≡ content self.old }
    {
        let search = self.search.ok_or(Refusal::ReplayUnasked)?;
        let played = replay(&mut self.cursor.world, &self.table, search.question, text)?;
        Ok(played)
    }

    pub(crate) fn do_report(&mut self, out: &mut [u8]) -> Result<usize, Refusal>
        ensures value { (result, out.new) ≡ reported_in M.machine (content self.old) out.old }
        ensures bound { IfOk result (λ n. n ≤ length out.old) }
        ensures kept { content self.new ≡ content self.old }
    {
        let search = self.search.ok_or(Refusal::ReportUnasked)?;
        let records = self.records();
        let lines = lines(search.verdict, &records);
        let needed = LINE * lines.len();
        if out.len() < needed {
            return Err(Refusal::Short { needed });
        }
        write_lines(&lines, out);
        Ok(needed)
    }
}
