// Filling a buffer from an open input or from a file by name.
ghost use Rattle.std.specs.Prelude.{◌≡◌, length, IfOk};
ghost use Rattle.sheet.specs.Fronts.{Fills};

use crate::show;
use std::io::{ErrorKind, Read};
use std::rt::Files;
use std::{fs, io};

// How many bytes the buffer was filled to; none where a read failed. Reads until the buffer is full or the input ends, since bytes can come in pieces. A read that fails is no end: it is told.
pub fn from_input(
    rt: &(impl Eprint + AllocGlobal),
    input: &mut impl Read,
    name: &str,
    buf: &mut [u8],
) -> io::Result<Option<usize>>
    ensures filled { IfOk result (λ filled. Fills buf.old buf.new filled) }
    ensures room { length buf.new ≡ length buf.old }
{
    let mut done: usize = 0;
    while done < buf.len() {
        match input.read(&mut buf[done..]) {
            Ok(0) => return Ok(Some(done)),
            Ok(more) => done += more,
            Err(error) => {
                show::unreadable(rt, name, &error)?;
                return Ok(None);
            }
        }
    }
    Ok(Some(done))
}

// A file that does not exist is empty, and no other that cannot be opened or read: nobody handed in an empty layout then.
pub fn from_file(
    rt: &(impl Files + Eprint + AllocGlobal),
    path: &str,
    buf: &mut [u8],
) -> io::Result<Option<usize>>
    ensures filled { IfOk result (λ filled. Fills buf.old buf.new filled) }
    ensures room { length buf.new ≡ length buf.old }
{
    match fs::open(rt, path) {
        Ok(mut file) => from_input(rt, &mut file, path, buf),
        Err(error) if error.kind() == ErrorKind::NotFound => Ok(Some(0)),
        Err(error) => {
            show::unreadable(rt, path, &error)?;
            Ok(None)
        }
    }
}
