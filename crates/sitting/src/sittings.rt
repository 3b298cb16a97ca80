ghost use Rattle.std.specs.Prelude.{◌≡◌, ◌≤◌, length, IfOk};
ghost use Rattle.sitting.specs.Sits.{SeatSays, Sits, SittingSays};
ghost use Rattle.sitting.specs.Outputs.{answered, sat, sat_in, sat_over};

use super::asking::cut;
use super::searching::search;
use super::telling::tell;
use memory::{Kind, Memory};
use runs::Wish;
use session::{Refusal, Session, release_acquire, sequential};

// The least room of a buffer: as many lines as a report can have.
const LEAST: usize = 625;

// The calls, one after another, up to the first that is refused.
fn answer<M: Memory>(
    session: &mut Session<M>,
    wish: Wish,
    text: &[u8],
    out: &mut [u8],
) -> Result<usize, Refusal>
    ensures outcome { (result, out.new) ≡ answered M.machine wish text.now out.old }
    ensures bound { IfOk result (λ n. n ≤ length out.old) }
{
    session.load(text)?;
    session.put(wish.steps, wish.switches, wish.targets)?;
    search(session);
    session.report(out)
}

// The same, where a refusal on the way is written as a line.
fn write<M: Memory>(
    session: &mut Session<M>,
    wish: Wish,
    text: &[u8],
    out: &mut [u8],
) -> Result<usize, Refusal>
    ensures outcome { (result, out.new) ≡ sat M.machine wish text.now out.old }
    ensures bound { IfOk result (λ n. n ≤ length out.old) }
{
    if out.len() < LEAST {
        return Err(Refusal::Buffer);
    }
    match answer(session, wish, text, out) {
        Ok(written) => Ok(written),
        Err(why) => Ok(tell(why, out)),
    }
}

// A sitting in a session, whatever it held: load, put, works and report. It answers how many bytes it wrote.
pub fn sit<M: Memory + Drop>(
    mut session: Session<M>,
    wish: Wish,
    text: &[u8],
    out: &mut [u8],
) -> Result<usize, Refusal>
    ensures outcome { (result, out.new) ≡ sat M.machine wish text.now out.old }
    ensures bound { IfOk result (λ n. n ≤ length out.old) }
    ensures words { Sits M.machine M.WIDEST wish text.now out.old result out.new }
{
    write(&mut session, wish, text, out)
}

// A sitting in a new session over the memory that is wished for.
fn seat(wish: Wish, text: &[u8], out: &mut [u8]) -> Result<usize, Refusal>
    ensures outcome { (result, out.new) ≡ sat_over wish.memory wish text.now out.old }
    ensures bound { IfOk result (λ n. n ≤ length out.old) }
    ensures words { SeatSays wish text.now out.old result out.new }
{
    match wish.memory {
        Kind::Sequential => sit(sequential(), wish, text, out),
        Kind::ReleaseAcquire => sit(release_acquire(), wish, text, out),
    }
}

// A sitting of its own, from an input to a buffer. It answers how many bytes it wrote.
pub fn sitting(input: &[u8], out: &mut [u8]) -> Result<usize, Refusal>
    ensures outcome { (result, out.new) ≡ sat_in input.now out.old }
    ensures bound { IfOk result (λ n. n ≤ length out.old) }
    ensures words { SittingSays input.now out.old result out.new }
{
    if out.len() < LEAST {
        return Err(Refusal::Buffer);
    }
    match cut(input) {
        Ok(request) => seat(request.wish, request.text, out),
        Err(why) => Ok(tell(why, out)),
    }
}
