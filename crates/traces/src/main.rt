//! Runs each trace that is named and compares what is written with the worked answers beside it.
#![tactic(auto)]

use std::{env, fs};
use trace::transcript::transcript;

/// How many bytes are compared at once.
const CHUNK: usize = 64;

/// How many bytes are the same from the first one on. Chunks are compared first, since as a whole they take less.
fn same_bytes(a: &[u8], b: &[u8]) -> usize {
    let chunks = a
        .chunks(CHUNK)
        .zip(b.chunks(CHUNK))
        .take_while(|(x, y)| x == y)
        .count();
    let same = chunks.saturating_mul(CHUNK).min(a.len()).min(b.len());
    let more = a[same..]
        .iter()
        .zip(&b[same..])
        .take_while(|(x, y)| x == y)
        .count();
    same.saturating_add(more)
}

/// The line on which two texts first differ, from 1 on; none where they are the same.
fn first_difference(a: &[u8], b: &[u8]) -> Option<usize> {
    if a == b {
        return None;
    }
    let same = same_bytes(a, b);
    let ends = a.iter().take(same).filter(|byte| **byte == b'\n').count();
    Some(ends.saturating_add(1))
}

/// Runs one trace.
fn compare(rt: &HostRuntime, name: &str) -> anyhow::Result<()> {
    let input = fs::read(rt, format!(in rt.alloc(); "{name}.trace")?.as_str())?;
    let worked = fs::read(rt, format!(in rt.alloc(); "{name}.answers")?.as_str())?;
    let answers = transcript(rt.alloc(), input.as_slice())?;
    match first_difference(answers.as_slice(), worked.as_slice()) {
        None => println!(rt; "{name}: as worked")?,
        Some(line) => println!(rt; "{name}: differs in line {line}")?,
    }
    Ok(())
}

fn main(rt: HostRuntime) -> anyhow::Result<()> {
    for name in env::args(&rt)?.skip(1) {
        compare(&rt, name.as_str())?;
    }
    Ok(())
}
