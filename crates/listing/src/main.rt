// Prints the table on standard input as a programmer would read it, or why it is refused.

#![tactic(auto)]

mod answering;
mod refusals;
mod serving;
mod tables;

use serving::serve;
use std::io;

fn main(rt: HostRuntime) -> io::Result<()> {
    serve(rt.alloc(), &mut rt.stdin(), &mut rt.stdout())
}
