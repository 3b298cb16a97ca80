// Walks through release-acquire memory under the highest ceiling, by reads, writes and swaps equally often,
// and tells what came of it.

#![tactic(auto)]

ghost use Rattle.std.specs.Prelude.{◌≤◌};

use intake::number_or;
use memory::{Action, Memory, ReleaseAcquire, Seen, Shape};
use std::{env, io};

// How many turns are taken where no argument says it.
const TURNS: u32 = 1000;

// After so many turns the memory starts again, since it fills up.
const LENGTH: u32 = 60;

// What a walk met: sums go on from 0 past the largest number.
#[derive(Clone, Copy, Default)]
struct Tally {
    // The choices offered, where the walk asks.
    offered: u32,
    taken: u32,
    refused: u32,
    // The values seen.
    values: u32,
    switches: u32,
}

impl Tally {
    fn take(&mut self, seen: Seen) {
        self.taken = self.taken.wrapping_add(1);
        self.values = self.values.wrapping_add(u32::from(seen.value));
        self.switches = self.switches.wrapping_add(u32::from(seen.switch));
    }
}

// The next number of a row without pattern.
fn next(seed: u32) -> u32 {
    seed.wrapping_mul(1664525).wrapping_add(1013904223)
}

// A bit of a number.
fn bit(seed: u32, weight: u32) -> u8
    ensures { result ≤ 1 }
{
    u8::from(seed & weight != 0)
}

// One to four, by two bits of a number.
fn quarter(seed: u32, low: u32, high: u32) -> u8 {
    1 + bit(seed, low) + 2 * bit(seed, high)
}

// A read, a write and a swap, of a variable and with values that a number gives.
fn actions(seed: u32) -> [Action; 3] {
    let variable = quarter(seed, 1 << 12, 1 << 13);
    let value = bit(seed, 1 << 20);
    [
        Action::Read { variable },
        Action::Write { variable, value },
        Action::Swap {
            variable,
            old: value,
            new: bit(seed, 1 << 22),
        },
    ]
}

// How many choices the three actions have together.
fn ask<M: Memory>(memory: &M, process: u8, seed: u32) -> u32 {
    let mut sum = 0u32;
    for action in actions(seed) {
        // No offer is wider than 9,999, by a law of every memory, so the cast keeps it.
        sum = sum.wrapping_add(memory.offers(process, action) as u32);
    }
    sum
}

// So many turns over the shape. Each takes an action at its first or second choice, and asks
// before how many choices there are, if the walk asks: a closure in place of the yes or no would be made at the one
// call, and say no more.
fn walk<M: Memory>(memory: &mut M, shape: Shape, turns: u32, asks: bool) -> Tally {
    let mut tally = Tally::default();
    let mut seed = 1;
    for turn in 0..turns {
        if turn % LENGTH == 0 {
            memory.start(shape);
        }
        seed = next(seed);
        let process = quarter(seed, 1 << 8, 1 << 9);
        if asks {
            tally.offered = tally.offered.wrapping_add(ask(memory, process, seed));
        }
        // A cast to the wider type, for which there is no `From`.
        let action = actions(seed)[turn as usize % 3];
        match memory.take(process, action, usize::from(bit(seed, 1 << 16))) {
            Ok(seen) => tally.take(seen),
            Err(_) => tally.refused = tally.refused.wrapping_add(1),
        }
    }
    tally
}

fn main(rt: HostRuntime) -> io::Result<()> {
    let mut args = env::args(&rt)?.skip(1);
    let turns = number_or(args.next(), TURNS);
    // Any word after the number.
    let asks = args.next().is_some();
    let Some(shape) = Shape::new(4, 4, 24) else {
        return println!(rt; "no such shape");
    };
    let mut memory = ReleaseAcquire::new(shape);
    let Tally {
        offered,
        taken,
        refused,
        values,
        switches,
    } = walk(&mut memory, shape, turns, asks);
    println!(rt;
        "{turns} turns: {taken} taken, {refused} refused; {offered} offered; values {values}, {switches} switches"
    )
}
