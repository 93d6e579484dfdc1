// A problem is written and read back, and the two are compared.
ghost use Rattle.std.specs.Prelude.{◌≡◌, true};

use crate::{padded, show};
use model::{Numbers, Problem, Refusal, places};
use std::io;
use std::io::Write;

// Room for any file that is tried here.
pub const ROOM: usize = 4096;

// Whether two problems' numbers are the same.
fn same_numbers(a: Numbers, b: Numbers) -> bool
    ensures { (result ≡ true → a ≡ b) × (a ≡ b → result ≡ true) }
{
    a == b
}

// The bytes before a position, as far as there are any.
pub fn front(buf: &[u8], count: usize) -> &[u8] {
    if count <= buf.len() {
        &buf[0..count]
    } else {
        buf
    }
}

fn refused(out: &mut impl Write, name: &[u8], refusal: Refusal) -> io::Result<()> {
    show::refusal(out, name, refusal.number(), refusal.place())
}

// Reads the file that was written, and shows whether it gives the problem again.
fn read_back(out: &mut impl Write, name: &[u8], said: Numbers, file: &[u8]) -> io::Result<()> {
    let mut numbers = [0u64; places::END];
    let verdict = file::read_numbers(file, &mut numbers);
    match verdict {
        Err(refusal) => refused(out, name, refusal)?,
        Ok(()) => {
            let back = records::problem_of(&numbers);
            let same = same_numbers(said, numbers::numbers_of(back));
            show::read_back(out, name, file.len() as u64, same)?;
        }
    }
    Ok(())
}

// Writes a problem, and answers how many bytes its file has; of a refusal, which it shows, none.
fn write(
    out: &mut impl Write,
    name: &[u8],
    problem: Problem,
    room: &mut [u8],
) -> io::Result<usize> {
    let written = file::write(problem, room);
    match written {
        Ok(count) => Ok(count),
        Err(refusal) => {
            refused(out, name, refusal)?;
            Ok(0)
        }
    }
}

// A problem's file, read back.
pub fn run(out: &mut impl Write, name: &[u8], problem: Problem) -> io::Result<()> {
    let mut room = [0u8; ROOM];
    let count = write(out, name, problem, &mut room)?;
    if count != 0 {
        let said = numbers::numbers_of(problem);
        read_back(out, name, said, front(&room, count))?;
    }
    Ok(())
}

// A problem's file of one-byte numbers, written back from its padding.
pub fn from_padding(out: &mut impl Write, name: &[u8], problem: Problem) -> io::Result<()> {
    let mut room = [0u8; ROOM];
    let count = write(out, name, problem, &mut room)?;
    if count != 0 {
        let mut again = [0u8; ROOM];
        padded::rewrite(out, name, front(&room, count), &mut again)?;
    }
    Ok(())
}
