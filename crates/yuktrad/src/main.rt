// Does a sitting on standard input, and prints what it writes.

#![tactic(auto)]

mod serving;

use serving::serve;
use std::io;

fn main(rt: HostRuntime) -> io::Result<()> {
    serve(rt.alloc(), &mut rt.stdin(), &mut rt.stdout())
}
