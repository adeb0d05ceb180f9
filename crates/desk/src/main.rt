// The program of document 01: lines from standard input, what is printed for them to standard output. It ends with an error where it can't read or write them.
#![tactic(auto)]

use std::io;

fn main(rt: HostRuntime) -> io::Result<()> {
    serve::serve(&mut rt.stdin(), &mut rt.stdout())
}
