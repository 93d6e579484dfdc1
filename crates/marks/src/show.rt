// Bound's and Run's answers in print.
use model::{Bound, Refusal, Run};
use prints::{number, text};
use std::io;
use std::io::Write;

fn refusal(out: &mut impl Write, refusal: Refusal) -> io::Result<()> {
    prints::placed(out, b"refused ", refusal.number(), refusal.place())
}

pub fn bounded(out: &mut impl Write, answer: Result<Bound, Refusal>) -> io::Result<()> {
    match answer {
        Ok(b) => {
            number(out, b"need ", b.need.0)?;
            number(out, b", contested ", b.contested as u64)?;
            number(out, b", first loads ", b.first.0)?;
            number(out, b", bound ", b.bound.0)?;
        }
        Err(f) => refusal(out, f)?,
    }
    text(out, b"\n")
}

pub fn ran(out: &mut impl Write, answer: Result<Run, Refusal>) -> io::Result<()> {
    match answer {
        Ok(run) => {
            number(out, b"cycles ", run.cycles.0)?;
            number(out, b", loads ", run.loads)?;
        }
        Err(f) => refusal(out, f)?,
    }
    text(out, b"\n")
}

// The function that a region holds.
pub fn held(out: &mut impl Write, label: &[u8], function: u8) -> io::Result<()> {
    number(out, label, function as u64)
}
