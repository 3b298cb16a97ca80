// Performs the actions on standard input over a memory, and prints what came of each.

#![tactic(auto)]

mod acting;
mod answering;
mod asking;
mod cutting;
mod lines;
mod numbers;
mod outcomes;
mod performing;
mod reading;
mod serving;
mod settings;
mod telling;
mod wrongs;

use serving::serve;
use std::io;

fn main(rt: HostRuntime) -> io::Result<()> {
    serve(rt.alloc(), &mut rt.stdin(), &mut rt.stdout())
}
