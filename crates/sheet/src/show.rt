// Slips on standard output, failures on standard error.
ghost use Rattle.sheet.specs.Fronts.{Rendered};

use std::alloc::{AllocError, Global};
use std::io;

// What std puts behind the system's words for an error, before its number.
const NUMBER: &str = " (os error ";

// The system's words for an error alone, as `Is a directory`.
fn reason(alloc: Global, error: &io::Error) -> Result<String, AllocError> {
    let told = error.to_string(alloc)?;
    match told.as_str().split_once(NUMBER) {
        Some((words, _)) => String::from_str(alloc, words),
        None => told.clone(),
    }
}

// As `marksheet: cannot read layout.bin: Is a directory`.
pub fn unreadable(
    rt: &(impl Eprint + AllocGlobal),
    name: &str,
    error: &io::Error,
) -> io::Result<()> {
    let reason = reason(rt.alloc(), error)?;
    eprintln!(rt; "marksheet: cannot read {name}: {reason}")
}

// Prints a slip: all that goes to standard output. It has to be that of the problem file and the layout whose fronts were read, which stand here for that
// alone. Where it cannot be written whole, that is told, so that nobody takes a part of it for all.
pub fn print(
    rt: &(impl Print + Eprint + AllocGlobal),
    file: &[u8],
    n: usize,
    layout: &[u8],
    m: usize,
    slip: &[u8],
    size: usize,
) -> io::Result<()>
    requires { Rendered file.now n layout.now m slip.now size }
{
    let Err(error) = rt.write_all(&slip[..size]) else {
        return Ok(());
    };
    let reason = reason(rt.alloc(), &error)?;
    eprintln!(rt; "marksheet: cannot write the answer: {reason}")
}
