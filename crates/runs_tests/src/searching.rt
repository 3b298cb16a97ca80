// The search, along lists of runs that were written by hand.

use super::tables::{SMALL, asked, table_of};
use memory::{Fences, Memory, ReleaseAcquire, Sequential, Shape};
use notice::Notice;
use program::Table;
use runs::{Cursor, Question, Unasked, Verdict, Worked, read_question};
use std::process::Abort;
use std::test::Fail;

// Runs as process and choice of each move.
type Runs = &'static [&'static [(u8, usize)]];

// Release-acquire memory, two steps and one switch: the write takes timestamp 1 or 2, and a read of it is a switch.
const ONE_SWITCH: Runs = &[
    &[],
    &[(1, 0)],
    &[(1, 0), (2, 0)],
    &[(1, 0), (2, 1)],
    &[(1, 1)],
    &[(1, 1), (2, 0)],
    &[(1, 1), (2, 1)],
    &[(2, 0)],
    &[(2, 0), (1, 0)],
    &[(2, 0), (1, 1)],
];

const NO_SWITCH: Runs = &[
    &[],
    &[(1, 0)],
    &[(1, 0), (2, 0)],
    &[(1, 1)],
    &[(1, 1), (2, 0)],
    &[(2, 0)],
    &[(2, 0), (1, 0)],
    &[(2, 0), (1, 1)],
];

// Sequential memory: a step of the other process is a switch.
const SEQUENTIAL: Runs = &[
    &[],
    &[(1, 0)],
    &[(1, 0), (2, 0)],
    &[(2, 0)],
    &[(2, 0), (1, 0)],
];

// One run for each unit, in the order of the list, and then none.
fn passes<M: Memory + Drop>(
    rt: &impl Abort,
    below: M,
    table: &Table,
    question: Question,
    list: Runs,
) {
    let mut cursor = Cursor::over(Fences { below });
    let mut search = cursor.begin(table, question);
    let mut left = list.len();
    for run in list {
        let here = search.run;
        assert_eq!(rt; here.moves().len(), run.len());
        for (next, (process, choice)) in here.moves().iter().zip(*run) {
            assert!(rt; next.process == *process && next.choice == *choice);
        }
        left = left.saturating_sub(1);
        let verdict = if left == 0 {
            Verdict::None
        } else {
            Verdict::More
        };
        assert_eq!(rt;
            cursor.work(table, &mut search, 1),
            Worked { units: 1, verdict }
        );
    }
    let verdict = Verdict::None;
    assert_eq!(rt;
        cursor.work(table, &mut search, 7),
        Worked { units: 0, verdict }
    );
}

fn shape(table: &Table, ceiling: u8) -> Result<Shape, Fail> {
    let counts = table.counts();
    Shape::new(counts.processes, counts.variables, ceiling).ok_or_else(|| Fail::new("no shape"))
}

#[test]
fn runs_are_passed_in_order(rt: HostRuntime) -> Result<(), Fail> {
    let table = table_of(&rt, rt.alloc(), &SMALL)?;
    let shape = shape(&table, 2)?;
    let never = [3, 0, 0, 0];
    let one = asked(&table, 2, 1, never)?;
    passes(&rt, ReleaseAcquire::new(shape), &table, one, ONE_SWITCH);
    let none = asked(&table, 2, 0, never)?;
    passes(&rt, ReleaseAcquire::new(shape), &table, none, NO_SWITCH);
    passes(&rt, Sequential::new(shape), &table, one, SEQUENTIAL);
    Ok(())
}

// The first run with process 1 at its start and process 2 at its end is the eighth of the list.
#[test]
fn works_add_up(rt: HostRuntime) -> Result<(), Fail> {
    let table = table_of(&rt, rt.alloc(), &SMALL)?;
    let question = asked(&table, 2, 1, [1, 2, 0, 0])?;
    let mut cursor = Cursor::over(Fences {
        below: ReleaseAcquire::new(shape(&table, 2)?),
    });
    let mut search = cursor.begin(&table, question);
    for (effort, units, verdict) in [
        (5, 5, Verdict::More),
        (2, 2, Verdict::More),
        (5, 1, Verdict::Found),
        (5, 0, Verdict::Found),
    ] {
        assert_eq!(rt;
            cursor.work(&table, &mut search, effort),
            Worked { units, verdict }
        );
    }
    assert_eq!(rt; search.run.moves().len(), 1);
    Ok(())
}

#[test]
fn questions_have_limits(rt: HostRuntime) -> Result<(), Fail> {
    let table = table_of(&rt, rt.alloc(), &SMALL)?;
    assert!(rt; Question::new(&table, 24, 24, [3, 2, 0, 0]).is_ok());
    for (steps, switches, targets, number, place) in [
        (25, 0, [0, 0, 0, 0], 22, 0),
        (0, 25, [9, 9, 9, 9], 22, 0),
        (0, 0, [4, 3, 0, 0], 23, 1),
        (0, 0, [3, 3, 1, 0], 23, 2),
        (0, 0, [0, 0, 1, 1], 23, 3),
        (0, 0, [0, 0, 0, 1], 23, 4),
    ] {
        let Err(why) = Question::new(&table, steps, switches, targets) else {
            return Err(Fail::new("asked"));
        };
        let notice = Notice::from(why);
        assert_eq!(rt; (notice.number, notice.place), (number, place));
    }
    let empty = Table::empty();
    assert!(rt; Question::new(&empty, 25, 0, [0; 4]).is_err_and(|why| why == Unasked::NoTable));
    Ok(())
}

#[test]
fn question_lines_are_read(rt: HostRuntime) -> Result<(), Fail> {
    let Some(wish) = read_question(b"   1   8   0   5   6   0   0\n") else {
        return Err(Fail::new("not read"));
    };
    assert_eq!(rt; (wish.steps, wish.switches), (8, 0));
    let [one, two, three, four] = wish.targets;
    assert_eq!(rt; (one, two, three, four), (5, 6, 0, 0));
    let Some(blank) = read_question(b"   0  24       1   2   3   4\n") else {
        return Err(Fail::new("not read"));
    };
    assert_eq!(rt; (blank.steps, blank.switches), (24, 2));
    assert!(rt; read_question(b"   2   8   0   5   5   0   0\n").is_none());
    assert!(rt; read_question(b"       8   0   5   5   0   0\n").is_none());
    assert!(rt; read_question(b"   1   8   0   5   5   0   0").is_none());
    Ok(())
}
