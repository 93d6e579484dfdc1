// One line of output for each trial.
use prints::{number, text};
use std::io;
use std::io::Write;

// As `M10 into 9 bytes: refusal 10 at 10`.
pub fn refusal(out: &mut impl Write, name: &[u8], status: u32, place: u64) -> io::Result<()> {
    text(out, name)?;
    prints::placed(out, b": refusal ", status, place)?;
    text(out, b"\n")
}

// As `fields of M10: 10 bytes`.
pub fn line(out: &mut impl Write, name: &[u8], count: u64, what: &[u8]) -> io::Result<()> {
    text(out, name)?;
    number(out, b": ", count)?;
    text(out, what)?;
    text(out, b"\n")
}

// As `M10 into 10 bytes: 10 bytes, equal to the file`.
pub fn written(out: &mut impl Write, name: &[u8], count: u64, same: bool) -> io::Result<()> {
    if same {
        line(out, name, count, b" bytes, equal to the file")?;
    } else {
        line(out, name, count, b" bytes, other than the file")?;
    }
    Ok(())
}

// As `P padded: 190 bytes, written back as 38, equal to the file`.
pub fn rewritten(
    out: &mut impl Write,
    name: &[u8],
    read: u64,
    count: u64,
    same: bool,
) -> io::Result<()> {
    text(out, name)?;
    number(out, b": ", read)?;
    number(out, b" bytes, written back as ", count)?;
    if same {
        text(out, b", equal to the file\n")?;
    } else {
        text(out, b", other than the file\n")?;
    }
    Ok(())
}

// As `P: 38 bytes, read back equal`.
pub fn read_back(out: &mut impl Write, name: &[u8], count: u64, same: bool) -> io::Result<()> {
    if same {
        line(out, name, count, b" bytes, read back equal")?;
    } else {
        line(out, name, count, b" bytes, read back different")?;
    }
    Ok(())
}

// As `M10: functions 1, vertices 1, edges 0, loops 0`.
pub fn counts(out: &mut impl Write, name: &[u8], answer: [u64; 4]) -> io::Result<()> {
    text(out, name)?;
    number(out, b": functions ", answer[0])?;
    number(out, b", vertices ", answer[1])?;
    number(out, b", edges ", answer[2])?;
    number(out, b", loops ", answer[3])?;
    text(out, b"\n")
}
