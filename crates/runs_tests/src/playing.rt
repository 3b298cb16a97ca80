// Each outcome of a written run.

use super::tables::{STORE_BUFFERING, asked, table_of, text_of};
use memory::{Fences, ReleaseAcquire, Sequential};
use notice::Notice;
use replay::{Fault, Played, replay};
use std::alloc::Global;
use std::process::Abort;
use std::test::Fail;
use worlds::World;

// The run in which neither process reads the other's write.
const STALE: [[u16; 6]; 8] = [
    [1, 1, 1, 0, 0, 0],
    [2, 1, 2, 0, 0, 0],
    [3, 1, 3, 0, 0, 0],
    [4, 1, 4, 0, 0, 0],
    [5, 2, 1, 0, 0, 0],
    [6, 2, 2, 0, 0, 0],
    [7, 2, 3, 0, 0, 0],
    [8, 2, 4, 0, 0, 0],
];

// What is told of a written run: its steps and switches, or number, place and offer of the refusal.
type Told = Result<(u8, u8), (u8, u8, Option<usize>)>;

fn told(outcome: Result<Played, Fault>) -> Told {
    match outcome {
        Ok(played) => Ok((played.steps, played.switches)),
        Err(fault) => {
            let notice = Notice::from(fault);
            Err((notice.number, notice.place, fault.offered()))
        },
    }
}

// The stale run of store buffering, of which line 7 is another one.
fn with_seventh(line: [u16; 6]) -> [[u16; 6]; 8] {
    let mut lines = STALE;
    lines[6] = line;
    lines
}

// What playing the lines tells, for at most so many steps and switches.
fn played(
    rt: &impl Abort,
    heap: Global,
    steps: u16,
    switches: u16,
    lines: &[[u16; 6]],
) -> Result<Told, Fail> {
    let table = table_of(rt, heap, &STORE_BUFFERING)?;
    let question = asked(&table, steps, switches, [5, 5, 0, 0])?;
    let mut world = World::new(Fences {
        below: ReleaseAcquire::new(question.shape),
    });
    let text = text_of(heap, lines)?;
    Ok(told(replay(&mut world, &table, question, text.as_slice())))
}

#[test]
fn runs_are_accepted(rt: HostRuntime) -> Result<(), Fail> {
    let heap = rt.alloc();
    assert_eq!(rt; played(&rt, heap, 8, 0, &STALE)?, Ok((8, 0)));
    assert_eq!(rt; played(&rt, heap, 24, 24, &STALE)?, Ok((8, 0)));
    Ok(())
}

#[test]
fn seventh_line_is_judged(rt: HostRuntime) -> Result<(), Fail> {
    let heap = rt.alloc();
    for (line, number, offered) in [
        ([6, 2, 3, 0, 0, 0], 51, None),
        ([7, 3, 3, 0, 0, 0], 52, None),
        ([7, 0, 3, 0, 0, 0], 52, None),
        ([7, 258, 3, 0, 0, 0], 52, None),
        ([7, 2, 2, 0, 0, 0], 52, None),
        ([7, 2, 3, 2, 0, 0], 53, Some(2)),
        ([7, 1, 5, 0, 0, 0], 53, Some(0)),
        ([7, 2, 3, 1, 0, 0], 54, None),
        ([7, 2, 3, 0, 0, 2], 54, None),
        ([7, 2, 3, 1, 1, 1], 55, None),
        // The first of two.
        ([6, 2, 2, 2, 0, 2], 51, None),
        ([7, 2, 2, 2, 0, 2], 52, None),
        ([7, 2, 3, 2, 0, 2], 53, Some(2)),
    ] {
        let lines = with_seventh(line);
        assert_eq!(rt; played(&rt, heap, 8, 0, &lines)?, Err((number, 7, offered)));
    }
    Ok(())
}

// The values of WRITE and FENCE are 0, whatever a register holds.
#[test]
fn writes_show_nothing(rt: HostRuntime) -> Result<(), Fail> {
    let heap = rt.alloc();
    let mut lines = STALE;
    lines[1] = [2, 1, 2, 0, 1, 0];
    assert_eq!(rt; played(&rt, heap, 8, 0, &lines)?, Err((54, 2, None)));
    Ok(())
}

#[test]
fn ends_are_judged(rt: HostRuntime) -> Result<(), Fail> {
    let heap = rt.alloc();
    assert_eq!(rt; played(&rt, heap, 8, 0, &STALE[..7])?, Err((56, 7, None)));
    assert_eq!(rt; played(&rt, heap, 8, 0, &[])?, Err((56, 0, None)));
    // The line after the last that is allowed is judged before the bound.
    assert_eq!(rt; played(&rt, heap, 7, 0, &STALE)?, Err((55, 8, None)));
    let mut lines = STALE;
    lines[7] = [9, 2, 4, 0, 0, 0];
    assert_eq!(rt; played(&rt, heap, 7, 0, &lines)?, Err((51, 8, None)));
    Ok(())
}

#[test]
fn texts_are_judged_first(rt: HostRuntime) -> Result<(), Fail> {
    let heap = rt.alloc();
    let table = table_of(&rt, heap, &STORE_BUFFERING)?;
    let question = asked(&table, 8, 0, [5, 5, 0, 0])?;
    let mut world = World::new(Fences {
        below: Sequential::new(question.shape),
    });
    let mut text = text_of(heap, &STALE)?;
    // Sequential memory has no stale read, and the first step of process 2 is a switch.
    assert_eq!(rt;
        told(replay(&mut world, &table, question, text.as_slice())),
        Err((54, 5, None))
    );
    text.pop();
    assert_eq!(rt;
        told(replay(&mut world, &table, question, text.as_slice())),
        Err((42, 0, None))
    );
    text.push(b' ')?;
    assert_eq!(rt;
        told(replay(&mut world, &table, question, text.as_slice())),
        Err((43, 8, None))
    );
    let long = text_of(heap, &[[9; 6]; 25])?;
    assert_eq!(rt;
        told(replay(&mut world, &table, question, long.as_slice())),
        Err((42, 0, None))
    );
    Ok(())
}
