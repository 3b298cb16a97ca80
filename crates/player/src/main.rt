// Plays the written run on standard input, which follows a question line and a table, and prints what it does.

#![tactic(auto)]

mod answering;
mod endings;
mod inputs;
mod serving;
mod steps;

use serving::serve;
use std::io;

fn main(rt: HostRuntime) -> io::Result<()> {
    serve(rt.alloc(), &mut rt.stdin(), &mut rt.stdout())
}
