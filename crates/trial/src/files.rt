// Files that are read, and M10's written again.
use crate::{padded, show};
use std::io;
use std::io::Write;

// Reads a file, and shows the refusal or the numbers of functions, vertices, edges and loops.
fn read(out: &mut impl Write, name: &[u8], file: &[u8]) -> io::Result<()> {
    let mut answer = [0u64; 4];
    let status = examiner::examiner_read(file, &mut answer);
    if status != 0 {
        return show::refusal(out, name, status, answer[0]);
    }
    show::counts(out, name, answer)
}

// Reads a file and writes its problem, and shows the refusal, or the bytes written and whether they are the file again.
fn write(out: &mut impl Write, name: &[u8], file: &[u8], room: &mut [u8]) -> io::Result<()> {
    let mut answer = [0u64; 4];
    let status = examiner::examiner_write(file, room, &mut answer);
    if status != 0 {
        return show::refusal(out, name, status, answer[0]);
    }
    show::written(out, name, answer[0], file == &room[..])
}

// Each refusal of Read before the graph.
pub fn refused_by_fields(out: &mut impl Write) -> io::Result<()> {
    read(out, b"M10 cut after 4 bytes", b"\x01\x08\x01\x08")?;
    read(
        out,
        b"M10 with scratchpad 88 80 80 80 10",
        b"\x01\x88\x80\x80\x80\x10\x01\x08\x05\x01\x00\x0a\x00\x00",
    )?;
    read(
        out,
        b"M10 with 33 functions",
        b"\x01\x08\x21\x08\x05\x01\x00\x0a\x00\x00",
    )?;
    read(
        out,
        b"2 vertices, edge 0-1 twice",
        b"\x01\x08\x01\x08\x05\x02\x00\x0a\x00\x0a\x02\x00\x01\x00\x01\x00",
    )?;
    read(
        out,
        b"M10 and a byte after it",
        b"\x01\x08\x01\x08\x05\x01\x00\x0a\x00\x00\x00",
    )
}

// Each refusal of the graph.
pub fn refused_by_graph(out: &mut impl Write) -> io::Result<()> {
    read(
        out,
        b"3 vertices, edges 0-1 0-2",
        b"\x01\x08\x01\x08\x05\x03\x00\x0a\x00\x0a\x00\x0a\x02\x00\x01\x00\x02\x00",
    )?;
    read(
        out,
        b"5 vertices in a chain, loops 1 to 2 and 2 to 3",
        b"\x01\x08\x01\x08\x05\x05\x00\x0a\x00\x0a\x00\x0a\x00\x0a\x00\x0a\x04\x00\x01\x01\x02\x02\x03\x03\x04\x02\x01\x02\x02\x02\x03\x02",
    )?;
    read(
        out,
        b"2 vertices, edges 0-1 1-0",
        b"\x01\x08\x01\x08\x05\x02\x00\x0a\x00\x0a\x02\x00\x01\x01\x00\x00",
    )?;
    read(
        out,
        b"3 vertices in a chain, loop 1 to 1",
        b"\x01\x08\x01\x08\x05\x03\x00\x0a\x00\x0a\x00\x0a\x02\x00\x01\x01\x02\x01\x01\x01\x02",
    )
}

// M10's file: read, and written into a buffer that is too short and into one that is not; then with numbers padded.
pub fn m10(out: &mut impl Write) -> io::Result<()> {
    let file = b"\x01\x08\x01\x08\x05\x01\x00\x0a\x00\x00";
    let mut short = [0u8; 9];
    write(out, b"M10 into 9 bytes", file, &mut short)?;
    let mut whole = [0u8; 10];
    write(out, b"M10 into 10 bytes", file, &mut whole)?;
    read(out, b"M10", file)?;
    read(
        out,
        b"M10 with scratchpad 88 00",
        b"\x01\x88\x00\x01\x08\x05\x01\x00\x0a\x00\x00",
    )?;
    padded::rewrite(out, b"M10 padded, into 9 bytes", file, &mut short)?;
    padded::rewrite(out, b"M10 padded, into 10 bytes", file, &mut whole)
}

// R's file with the greatest bound, padded, and with greater ones; and with a second loop from the same header.
pub fn bounds_of_r(out: &mut impl Write) -> io::Result<()> {
    read(
        out,
        b"file of R with bound 80 A0 80 80 00",
        b"\x01\x02\x02\x01\x05\x01\x03\x04\x00\x01\x00\x02\x01\x07\x00\x01\x04\x00\x01\x01\x02\x01\x03\x02\x01\x01\x01\x02\x80\xa0\x80\x80\x00",
    )?;
    read(
        out,
        b"file of R with bound 81 20",
        b"\x01\x02\x02\x01\x05\x01\x03\x04\x00\x01\x00\x02\x01\x07\x00\x01\x04\x00\x01\x01\x02\x01\x03\x02\x01\x01\x01\x02\x81\x20",
    )?;
    read(
        out,
        b"file of R with bound 81 A0 80 80 00",
        b"\x01\x02\x02\x01\x05\x01\x03\x04\x00\x01\x00\x02\x01\x07\x00\x01\x04\x00\x01\x01\x02\x01\x03\x02\x01\x01\x01\x02\x81\xa0\x80\x80\x00",
    )?;
    read(
        out,
        b"file of R with bound FF FF 03",
        b"\x01\x02\x02\x01\x05\x01\x03\x04\x00\x01\x00\x02\x01\x07\x00\x01\x04\x00\x01\x01\x02\x01\x03\x02\x01\x01\x01\x02\xff\xff\x03",
    )?;
    read(
        out,
        b"file of R with loop 1 to 2 of bound 5 too",
        b"\x01\x02\x02\x01\x05\x01\x03\x04\x00\x01\x00\x02\x01\x07\x00\x01\x04\x00\x01\x01\x02\x01\x03\x02\x01\x02\x01\x02\x04\x01\x02\x05",
    )?;
    read(
        out,
        b"file of R with loop 1 to 2 of bound 5,000 too",
        b"\x01\x02\x02\x01\x05\x01\x03\x04\x00\x01\x00\x02\x01\x07\x00\x01\x04\x00\x01\x01\x02\x01\x03\x02\x01\x02\x01\x02\x04\x01\x02\x88\x27",
    )
}
