#![tactic(auto)]

ghost use Rattle.std.specs.Prelude.{◌≡◌};
ghost use Rattle.program.specs.Reading.{read};
ghost use Rattle.program.specs.Tables.{program};
ghost use Rattle.rereading.specs.Turns.{repeated};

use intake::{number_or, read_all};
use notice::Notice;
use program::{Refusal, Table};
use std::{env, io};

// Reads a table's text into one table over and over, and tells what came of it.

// How many times the text is read where no argument says it.
const TURNS: u32 = 1000;

// How many times a text was read and how many times it was refused, and the last refusal.
#[derive(Clone, Copy, Default)]
struct Outcomes {
    accepted: u32,
    refused: u32,
    last: Option<Refusal>,
}

// Reads a text into a table so many times.
fn reread(table: &mut Table, text: &[u8], turns: u32) -> Outcomes
    ensures { (result, program table.new) ≡ repeated (program table.old) (read text.now) turns }
{
    let mut outcomes = Outcomes::default();
    for _turn in 0..turns {
        match table.read(text) {
            Ok(()) => outcomes.accepted += 1,
            Err(refusal) => {
                outcomes.refused += 1;
                outcomes.last = Some(refusal);
            }
        }
    }
    outcomes
}

// Prints the line that tells the outcomes.
fn tell(rt: &HostRuntime, table: &Table, outcomes: Outcomes) -> io::Result<()> {
    if let Some(refusal) = outcomes.last {
        let notice = Notice::from(refusal);
        let times = outcomes.refused;
        let number = notice.number;
        let place = notice.place;
        return println!(rt; "refused {times} times: number {number}, place {place}");
    }
    let times = outcomes.accepted;
    let processes = table.counts().processes;
    let rows = table.rows().len();
    let labels = table.labels(processes);
    println!(rt;
        "read {times} times: {processes} processes, {rows} rows, {labels} of the last process"
    )
}

fn main(rt: HostRuntime) -> io::Result<()> {
    let turns = number_or(env::args(&rt)?.nth(1), TURNS);
    let text = read_all(rt.alloc(), &mut rt.stdin())?;
    let mut table = Table::empty();
    let outcomes = reread(&mut table, text.as_slice(), turns);
    tell(&rt, &table, outcomes)
}
