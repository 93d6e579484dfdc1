// A reason, and the walk that shows it, in a line.
use model::{Problem, Reason};
use prints::{number, text};
use std::io;
use std::io::Write;

// No walk is longer.
const MOST_SHOWN: usize = 256;

fn wide(entry: u32) -> u64 {
    entry as u64
}

fn entries(out: &mut impl Write, walk: &[u32], count: usize) -> io::Result<()> {
    text(out, b", by")?;
    for i in 0..count {
        if i < walk.len() {
            number(out, b" ", wide(walk[i]))?;
        }
    }
    Ok(())
}

fn reason(out: &mut impl Write, reason: Reason) -> io::Result<()> {
    match reason {
        Reason::EveryVisit(g) => number(out, b"every visit, function ", g as u64)?,
        Reason::FirstLoad => text(out, b"first load")?,
        Reason::Never => text(out, b"never")?,
    }
    Ok(())
}

// With as many entries as are lent.
pub fn line(
    out: &mut impl Write,
    title: &[u8],
    problem: Problem,
    layout: &[u8],
    vertex: u64,
    walk: &mut [u32],
) -> io::Result<()> {
    text(out, title)?;
    let answer = eviction::eviction(problem, layout, vertex, walk);
    match answer {
        Ok(e) => {
            let why = e.reason;
            let count = e.count;
            reason(out, why)?;
            if 0 < count {
                entries(out, walk, count)?;
            }
        }
        Err(f) => {
            prints::placed(out, b"refused ", f.number(), f.place())?;
        }
    }
    text(out, b"\n")
}

pub fn one(
    out: &mut impl Write,
    title: &[u8],
    problem: Problem,
    layout: &[u8],
    vertex: u64,
) -> io::Result<()> {
    let mut walk = [0u32; MOST_SHOWN];
    line(out, title, problem, layout, vertex, &mut walk)
}

// Every vertex.
pub fn each(
    out: &mut impl Write,
    title: &[u8],
    problem: Problem,
    layout: &[u8],
    vertices: u64,
) -> io::Result<()> {
    text(out, title)?;
    for v in 0..vertices {
        number(out, b"vertex ", v)?;
        one(out, b": ", problem, layout, v)?;
    }
    Ok(())
}
