// Answers in print.
use model::{Bound, Problem, Refusal, Run};
use prints::{number, text};
use std::io;
use std::io::Write;

// Room for any file that is written here.
const ROOM: usize = 4096;

fn refused(out: &mut impl Write, refusal: Refusal) -> io::Result<()> {
    prints::placed(out, b"refused ", refusal.number(), refusal.place())
}

pub fn bounded(out: &mut impl Write, answer: Result<Bound, Refusal>) -> io::Result<()> {
    match answer {
        Ok(b) => {
            number(out, b"need ", b.need.0)?;
            number(out, b", contested ", b.contested as u64)?;
            number(out, b", first loads ", b.first.0)?;
            number(out, b", bound ", b.bound.0)?;
        }
        Err(f) => refused(out, f)?,
    }
    text(out, b"\n")
}

pub fn ran(out: &mut impl Write, answer: Result<Run, Refusal>) -> io::Result<()> {
    match answer {
        Ok(run) => {
            number(out, b"cycles ", run.cycles.0)?;
            number(out, b", loads ", run.loads)?;
        }
        Err(f) => refused(out, f)?,
    }
    text(out, b"\n")
}

// As `10 bytes of edition 1`.
fn written(out: &mut impl Write, bytes: u64, edition: u8) -> io::Result<()> {
    number(out, b"", bytes)?;
    number(out, b" bytes of edition ", edition as u64)
}

// A file and what is written back of it, as `M10: 10 bytes, written back as 10 bytes of edition 1`.
pub fn file(out: &mut impl Write, name: &[u8], file: &[u8]) -> io::Result<()> {
    let mut room = [0u8; ROOM];
    let mut answer = [0u64; 4];
    let status = examiner::examiner_write(file, &mut room, &mut answer);
    text(out, name)?;
    number(out, b": ", file.len() as u64)?;
    if status == 0 {
        text(out, b" bytes, written back as ")?;
        written(out, answer[0], room[0])?;
    } else {
        prints::placed(out, b" bytes, refused ", status, answer[0])?;
    }
    text(out, b"\n")
}

// What is written of a record, as `Q with 0 1: 28 bytes of edition 2`.
pub fn record(out: &mut impl Write, name: &[u8], problem: Problem) -> io::Result<()> {
    let mut room = [0u8; ROOM];
    let answer = file::write(problem, &mut room);
    text(out, name)?;
    text(out, b": ")?;
    match answer {
        Ok(bytes) => written(out, bytes as u64, room[0])?,
        Err(f) => refused(out, f)?,
    }
    text(out, b"\n")
}
