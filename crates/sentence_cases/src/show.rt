// A remark's sentence, or a text with what it reads as, in a line.
use model::{Reason, Refusal, Remark, limits};
use prints::{number, text};
use std::io;
use std::io::Write;

fn refused(out: &mut impl Write, refusal: Refusal) -> io::Result<()> {
    prints::placed(out, b"refused ", refusal.number(), refusal.place())
}

// Into as many bytes as are lent.
pub fn worded(out: &mut impl Write, remark: Remark, lent: &mut [u8]) -> io::Result<()> {
    let answer = sentences::word(remark, lent);
    match answer {
        Ok(bytes) => {
            if bytes <= lent.len() {
                text(out, &lent[..bytes])?;
            }
        }
        Err(refusal) => refused(out, refusal)?,
    }
    text(out, b"\n")
}

pub fn refusal(out: &mut impl Write, refusal: Refusal) -> io::Result<()> {
    let mut room = [0u8; limits::MOST_SENTENCE];
    worded(out, Remark::Refused(refusal), &mut room)
}

pub fn reason(out: &mut impl Write, reason: Reason) -> io::Result<()> {
    let mut room = [0u8; limits::MOST_SENTENCE];
    worded(out, Remark::Explained(reason), &mut room)
}

fn explained(out: &mut impl Write, reason: Reason) -> io::Result<()> {
    match reason {
        Reason::EveryVisit(g) => number(out, b"every visit, function ", g as u64)?,
        Reason::FirstLoad => text(out, b"first load")?,
        Reason::Never => text(out, b"never")?,
    }
    Ok(())
}

fn meant(out: &mut impl Write, remark: Remark) -> io::Result<()> {
    match remark {
        Remark::Refused(refusal) => {
            prints::placed(out, b"", refusal.number(), refusal.place())?;
        }
        Remark::Explained(reason) => explained(out, reason)?,
    }
    Ok(())
}

// What a text reads as.
pub fn read(out: &mut impl Write, words: &[u8]) -> io::Result<()> {
    text(out, b"`")?;
    text(out, words)?;
    text(out, b"`: ")?;
    let answer = sentences::read_sentence(words);
    match answer {
        Ok(remark) => meant(out, remark)?,
        Err(refusal) => refused(out, refusal)?,
    }
    text(out, b"\n")
}
