//! Answers many traces: each follows a title line that begins with `#`.
#![tactic(auto)]

ghost use Rattle.std.specs.Prelude.{◌≤◌, length};

use memchr::memchr;
use std::io;
use std::io::{Read, Write};
use trace::transcript::transcript;

/// Where the first line ends.
fn line_end(case: &[u8]) -> usize
    ensures { result ≤ length case.now }
{
    memchr(b'\n', case).map_or(case.len(), |end| end + 1)
}

/// Writes each title and the transcript of the bytes after it.
fn answer_all(rt: &HostRuntime, input: &[u8]) -> io::Result<()> {
    for case in input.chunk_by(|before, byte| *byte != b'#' || *before != b'\n') {
        if case.starts_with(b"#") {
            let (title, trace) = case.split_at(line_end(case));
            rt.stdout().write_all(title)?;
            let out = transcript(rt.alloc(), trace)?;
            rt.stdout().write_all(out.as_slice())?;
        }
    }
    Ok(())
}

fn main(rt: HostRuntime) -> io::Result<()> {
    let mut input = Vec::new(rt.alloc());
    rt.stdin().read_to_end(&mut input)?;
    answer_all(&rt, input.as_slice())
}
