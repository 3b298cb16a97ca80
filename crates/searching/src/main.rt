// Searches the runs of a table for the targets of a question over and over, each time from the first run to the end of
// the list, and tells how many runs were looked at.

#![tactic(auto)]

ghost use Rattle.std.specs.Prelude.{◌≡◌, ◌*◌};
ghost use Rattle.program.specs.Tables.{program};
ghost use Rattle.runs.specs.Searches.{shown};
ghost use Rattle.searching.specs.Tallies.{tallied};

use intake::{number_or, read_all};
use memory::{Fences, Memory, ReleaseAcquire, Sequential};
use program::Table;
use runs::{Cursor, Question, Verdict};
use std::{env, io};

// How many works a search has, and how many runs each of them looks at, at most.
const WORKS: u32 = 1000;

const EFFORT: u32 = 1_000_000;

// What came of searches: the runs looked at in all of them, and the verdict of the last.
#[derive(Clone, Copy)]
struct Tally {
    looked: u64,
    verdict: Verdict,
}

// One search from the first run on. A work looks at nothing more once the verdict stands.
fn search<M: Memory>(cursor: &mut Cursor<M>, table: &Table, question: Question) -> Tally
    ensures { result ≡ tallied (shown M.machine (program table.now) question (WORKS * EFFORT)) 1 }
{
    let mut search = cursor.begin(table, question);
    let mut looked = 0;
    for _work in 0..WORKS {
        let worked = cursor.work(table, &mut search, EFFORT);
        looked += u64::from(worked.units);
    }
    Tally {
        looked,
        verdict: search.verdict,
    }
}

// So many searches over a memory.
fn count<M: Memory + Drop>(memory: M, table: &Table, question: Question, times: u32) -> Tally
    ensures { result ≡ tallied (shown M.machine (program table.now) question (WORKS * EFFORT)) times }
{
    let mut cursor = Cursor::over(memory);
    let mut tally = Tally {
        looked: 0,
        verdict: Verdict::More,
    };
    for _turn in 0..times {
        let once = search(&mut cursor, table, question);
        tally.looked += once.looked;
        tally.verdict = once.verdict;
    }
    tally
}

// A number for a question; what does not fit is too large for any.
fn small(word: Option<String>, other: u16) -> u16 {
    u16::try_from(number_or(word, u32::from(other))).unwrap_or(u16::MAX)
}

// Prints the line that tells what came of the searches.
fn tell(rt: &HostRuntime, tally: Tally) -> io::Result<()> {
    let verdict = match tally.verdict {
        Verdict::More => "more",
        Verdict::Found => "found",
        Verdict::None => "none",
    };
    let looked = tally.looked;
    println!(rt; "{looked} runs looked at, {verdict}")
}

// The arguments are the memory, 0 for sequential, the steps, the switches, a target for each process and how many
// searches there are.
fn main(rt: HostRuntime) -> io::Result<()> {
    let mut args = env::args(&rt)?.skip(1);
    let is_sequential = number_or(args.next(), 1) == 0;
    let steps = small(args.next(), 7);
    let switches = small(args.next(), 7);
    let targets = [
        small(args.next(), 5),
        small(args.next(), 5),
        small(args.next(), 0),
        small(args.next(), 0),
    ];
    let times = number_or(args.next(), 1);
    let text = read_all(rt.alloc(), &mut rt.stdin())?;
    let mut table = Table::empty();
    if let Err(refusal) = table.read(text.as_slice()) {
        return println!(rt; "refused: {refusal}");
    }
    let question = match Question::new(&table, steps, switches, targets) {
        Ok(question) => question,
        Err(why) => return println!(rt; "not asked: {why}"),
    };
    let tally = if is_sequential {
        let below = Sequential::new(question.shape);
        count(Fences { below }, &table, question, times)
    } else {
        let below = ReleaseAcquire::new(question.shape);
        count(Fences { below }, &table, question, times)
    };
    tell(&rt, tally)
}
