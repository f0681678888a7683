// Reads pairs (port, byte) from standard input, and prints each reply.
#![tactic(auto)]

use std::io;
use std::io::{Read, Write};

mod line;
mod session;

fn main(rt: HostRuntime) -> io::Result<()> {
    let heap = rt.alloc();
    let mut input = Vec::new(heap);
    rt.stdin().read_to_end(&mut input)?;
    let output = session::printed(heap, &input)?;
    rt.stdout().write_all(&output)
}
