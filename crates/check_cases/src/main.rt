// Request 9/14, worked: bounds and runs with check costs, files of both editions as they are written back, and where records with check costs are refused.
#![tactic(auto)]

mod show;

use model::{Problem, limits};
use prints::text;
use std::io;
use std::io::Write;

fn bound(out: &mut impl Write, name: &[u8], problem: Problem, layout: &[u8]) -> io::Result<()> {
    text(out, name)?;
    show::bounded(out, bound::bound(problem, layout))
}

fn run(
    out: &mut impl Write,
    name: &[u8],
    problem: Problem,
    layout: &[u8],
    walk: &[u32],
) -> io::Result<()> {
    text(out, name)?;
    let mut held = [0u8; limits::MOST_REGIONS];
    show::ran(out, run::run(problem, layout, walk, &mut held))
}

fn checked_p(out: &mut impl Write) -> io::Result<()> {
    bound(
        out,
        b"P with 1 2 3, layout 0 1 1: ",
        samples::checked_p(14, 1, 2, 3),
        &[0, 1, 1],
    )?;
    let chain = [0u32, 1, 2, 3, 4, 5, 6];
    run(
        out,
        b"P with 1 2 3, layout 0 1 1, the chain: ",
        samples::checked_p(14, 1, 2, 3),
        &[0, 1, 1],
        &chain,
    )
}

fn checked_q(out: &mut impl Write) -> io::Result<()> {
    bound(
        out,
        b"Q with 2 4, layout 0 1: ",
        samples::checked_q(2, 4),
        &[0, 1],
    )?;
    run(
        out,
        b"Q with 2 4, layout 0 1, walk 0 2 3: ",
        samples::checked_q(2, 4),
        &[0, 1],
        &[0, 2, 3],
    )?;
    run(
        out,
        b"Q with 2 4, layout 0 1, walk 0 1 3: ",
        samples::checked_q(2, 4),
        &[0, 1],
        &[0, 1, 3],
    )
}

// A check is charged by vertex, so that a bound may exceed every run.
fn checked_r(out: &mut impl Write) -> io::Result<()> {
    let longest = [0u32, 1, 2, 1, 2, 1, 2, 1, 3];
    bound(
        out,
        b"R with 2 4, layout 0 1: ",
        samples::checked_r(4, 2, 4),
        &[0, 1],
    )?;
    run(
        out,
        b"R with 2 4, layout 0 1, the longest: ",
        samples::checked_r(4, 2, 4),
        &[0, 1],
        &longest,
    )?;
    bound(
        out,
        b"R with 2 4, layout 0 0: ",
        samples::checked_r(4, 2, 4),
        &[0, 0],
    )?;
    run(
        out,
        b"R with 2 4, layout 0 0, the longest: ",
        samples::checked_r(4, 2, 4),
        &[0, 0],
        &longest,
    )?;
    bound(
        out,
        b"R with bound 1 and 2 4, layout 0 1: ",
        samples::checked_r(1, 2, 4),
        &[0, 1],
    )?;
    run(
        out,
        b"R with bound 1 and 2 4, layout 0 1, walk 0 1 3: ",
        samples::checked_r(1, 2, 4),
        &[0, 1],
        &[0, 1, 3],
    )
}

// M10's file in both editions.
fn files(out: &mut impl Write) -> io::Result<()> {
    show::file(out, b"M10", b"\x01\x08\x01\x08\x05\x01\x00\x0a\x00\x00")?;
    show::file(
        out,
        b"M10 in edition 2",
        b"\x02\x08\x01\x08\x05\x00\x01\x00\x0a\x00\x00",
    )?;
    show::file(
        out,
        b"M10 with check cost 5",
        b"\x02\x08\x01\x08\x05\x05\x01\x00\x0a\x00\x00",
    )?;
    show::file(
        out,
        b"M10 with check cost 5, its edition in five bytes",
        b"\x82\x80\x80\x80\x00\x08\x01\x08\x05\x05\x01\x00\x0a\x00\x00",
    )?;
    show::file(
        out,
        b"M10 with check cost 65,536",
        b"\x02\x08\x01\x08\x05\x80\x80\x04\x01\x00\x0a\x00\x00",
    )?;
    show::file(out, b"edition 0", b"\x00")?;
    show::file(out, b"edition 3", b"\x03")
}

// Q with a size of function 1 and check costs.
fn sized_q(size: u64, first: u64, second: u64) -> Problem {
    let functions = [2u64, 1, 5, first, size, 3, second];
    let vertices = [4u64, 0, 10, 1, 10, 1, 20, 0, 10];
    let edges = [4u64, 0, 1, 0, 2, 1, 3, 2, 3];
    samples::problem(2, &functions, &vertices, &edges, &[0])
}

// A record is placed by the edition that would be written of it.
fn records(out: &mut impl Write) -> io::Result<()> {
    show::record(out, b"Q with 0 0", sized_q(1, 0, 0))?;
    show::record(out, b"Q with 0 1", sized_q(1, 0, 1))?;
    show::record(out, b"Q with 0 70,000", sized_q(1, 0, 70000))?;
    show::record(out, b"Q with 70,000 0", sized_q(1, 70000, 0))?;
    show::record(out, b"Q with 0 0 and size 0", sized_q(0, 0, 0))?;
    show::record(out, b"Q with 0 1 and size 0", sized_q(0, 0, 1))?;
    show::record(out, b"Q with 300 0 and size 0", sized_q(0, 300, 0))
}

fn main(rt: HostRuntime) -> io::Result<()> {
    let mut out = io::writer(&rt);
    checked_p(&mut out)?;
    checked_q(&mut out)?;
    checked_r(&mut out)?;
    files(&mut out)?;
    records(&mut out)
}
