//! Answers the trace on standard input.
#![tactic(auto)]

use std::io;
use std::io::{Read, Write};
use trace::transcript::transcript;

/// One byte more than a trace may have, so that a longer one is seen to be longer.
const ENOUGH: u64 = 65537;

fn main(rt: HostRuntime) -> io::Result<()> {
    let mut input = Vec::new(rt.alloc());
    rt.stdin().take(ENOUGH).read_to_end(&mut input)?;
    let out = transcript(rt.alloc(), input.as_slice())?;
    rt.stdout().write_all(out.as_slice())
}
