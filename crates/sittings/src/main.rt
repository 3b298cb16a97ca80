// Does a sitting on each case of a batch on standard input, and prints what each writes.

#![tactic(auto)]

mod answering;
mod cases;
mod serving;

use serving::serve;
use std::io;

fn main(rt: HostRuntime) -> io::Result<()> {
    serve(rt.alloc(), &mut rt.stdin(), &mut rt.stdout())
}
