// The calls. Each answers and does what it did to the content before, `outcome`; after any series of calls on a session
// that began new it answers what the series amounts to, `law`; and what that says of the question's runs is `words`.

ghost use Rattle.std.specs.Prelude.{◌≡◌, ◌≤◌, List, length, IfOk};
ghost use Rattle.session.specs.Contents.{content};
ghost use Rattle.session.specs.Outcomes.{loaded_in, put_in, replayed_in, reported_in, standing_in, stepped_in, worked_in};
ghost use Rattle.session.specs.Series as call;
ghost use Rattle.session.specs.Answers.{loaded, opened, replayed, reported, stepped, stood, worked};
ghost use Rattle.session.specs.Law.{After, Lawful};
ghost use Rattle.session.specs.Words.{LoadSays, PutSays, ReplaySays, ReportSays, StandingSays, StepSays, WorkSays};

use super::refusals::Refusal;
use super::sessions::Session;
use super::standings::Standing;
use super::steps::Step;
use memory::Memory;
use replay::Played;
use runs::Worked;

impl<M: Memory> Session<M> {
    // Reads a table, and ends the question.
    pub fn load(&mut self, text: &[u8]) -> Result<(), Refusal>
        ensures outcome { (result, content self.new) ≡ loaded_in (content self.old) text.now }
        ensures law { Lawful M.machine (call.load text.now) (λ b. loaded b text.now) (content self.old) result (content self.new) }
        ensures words { LoadSays text.now result (content self.new) }
    {
        self.do_load(text)
    }

    // Asks a question of the table: runs of at most so many steps and switches to these targets, one for each process
    // from 1 on.
    pub fn put(&mut self, steps: u16, switches: u16, targets: [u16; 4]) -> Result<(), Refusal>
        ensures outcome { (result, content self.new) ≡ put_in (content self.old) steps switches targets }
        ensures law { Lawful M.machine (call.put steps switches targets) (λ b. opened b steps switches targets) (content self.old) result (content self.new) }
        ensures words { (h : List call.Call) → After M.machine h (content self.old) → PutSays h steps switches targets result }
    {
        self.do_put(steps, switches, targets)
    }

    // Looks at the next runs of the question's list, one for each unit of effort.
    pub fn work(&mut self, effort: u32) -> Result<Worked, Refusal>
        ensures outcome { (result, content self.new) ≡ worked_in M.machine (content self.old) effort }
        ensures law { Lawful M.machine (call.work effort) (λ b. worked M.machine b effort) (content self.old) result (content self.new) }
        ensures words { (h : List call.Call) → After M.machine h (content self.old) → WorkSays M.machine M.WIDEST h effort result }
    {
        self.do_work(effort)
    }

    // How far the session is.
    pub fn standing(&self) -> Standing
        ensures outcome { result ≡ standing_in (content self.now) }
        ensures law { Lawful M.machine call.standing (stood M.machine) (content self.now) result (content self.now) }
        ensures words { (h : List call.Call) → After M.machine h (content self.now) → StandingSays M.machine M.WIDEST h result }
    {
        self.do_standing()
    }

    // A step of the found run, counted from 1, if there is one.
    pub fn step(&mut self, i: usize) -> Option<Step>
        ensures outcome { result ≡ stepped_in M.machine (content self.old) i }
        ensures kept { content self.new ≡ content self.old }
        ensures law { Lawful M.machine (call.step i) (λ b. stepped M.machine b i) (content self.old) result (content self.new) }
        ensures words { (h : List call.Call) → After M.machine h (content self.old) → StepSays M.machine M.WIDEST h i result }
    {
        self.do_step(i)
    }

    // Plays a written run of the question, and answers its steps and switches.
    pub fn replay(&mut self, text: &[u8]) -> Result<Played, Refusal>
        ensures outcome { result ≡ replayed_in M.machine (content self.old) text.now }
        ensures kept { content self.new ≡ content self.old }
        ensures law { Lawful M.machine (call.replay text.now) (λ b. replayed M.machine b text.now) (content self.old) result (content self.new) }
        ensures words { (h : List call.Call) → After M.machine h (content self.old) → ReplaySays M.machine h text.now result }
    {
        self.do_replay(text)
    }

    // Writes a verdict line and the found run to the front of a buffer, and answers how many bytes they are.
    pub fn report(&mut self, out: &mut [u8]) -> Result<usize, Refusal>
        ensures outcome { (result, out.new) ≡ reported_in M.machine (content self.old) out.old }
        ensures bound { IfOk result (λ n. n ≤ length out.old) }
        ensures kept { content self.new ≡ content self.old }
        ensures law { Lawful M.machine (call.report out.old) (λ b. reported M.machine b out.old) (content self.old) (result, out.new) (content self.new) }
        ensures words { (h : List call.Call) → After M.machine h (content self.old) → ReportSays M.machine M.WIDEST h out.old result out.new }
    {
        self.do_report(out)
    }
}
