// The worked cases of request 5/14: of each vertex why it pays its load, and the shortest walk that shows it. Then the readings that a walk tells apart, the
// longest walk, and the refusals.
#![tactic(auto)]

mod longest;
mod show;

use std::io;
use std::io::Write;

fn cases_of_p(out: &mut impl Write) -> io::Result<()> {
    show::each(out, b"P, layout 0 1 1:\n", samples::p(14), &[0, 1, 1], 7)?;
    show::each(out, b"P, layout 0 0 1:\n", samples::p(14), &[0, 0, 1], 7)?;
    show::each(
        out,
        b"P with scratchpad 18, layout 0 1 2:\n",
        samples::p(18),
        &[0, 1, 2],
        7,
    )
}

fn cases_of_q_and_r(out: &mut impl Write) -> io::Result<()> {
    show::each(out, b"Q, layout 0 0:\n", samples::q(), &[0, 0], 4)?;
    show::each(out, b"R, layout 0 0:\n", samples::r(4), &[0, 0], 4)
}

// Function 2 has the shorter walk, and function 1 the lower number.
fn function_first(out: &mut impl Write) -> io::Result<()> {
    let functions = [4, 1, 1, 0, 1, 1, 0, 1, 1, 0, 1, 1, 0];
    let vertices = [6, 3, 1, 0, 1, 2, 1, 1, 1, 2, 1, 0, 1];
    let edges = [6, 0, 1, 0, 2, 1, 3, 2, 4, 3, 4, 4, 5];
    let problem = samples::problem(2, &functions, &vertices, &edges, &[0]);
    show::one(
        out,
        b"first the function, then its walk: ",
        problem,
        &[0, 0, 0, 1],
        5,
    )
}

// Of two walks with as many entries, 0 2 3 5 would win from the end.
fn from_the_start(out: &mut impl Write) -> io::Result<()> {
    let functions = [3, 1, 1, 0, 1, 1, 0, 1, 1, 0];
    let vertices = [6, 0, 1, 1, 1, 1, 1, 2, 1, 2, 1, 0, 1];
    let edges = [6, 0, 1, 0, 2, 1, 4, 2, 3, 3, 5, 4, 5];
    let problem = samples::problem(1, &functions, &vertices, &edges, &[0]);
    show::one(
        out,
        b"the first difference from the start: ",
        problem,
        &[0, 0, 0],
        5,
    )
}

// The walk passes the vertex before.
fn twice(out: &mut impl Write) -> io::Result<()> {
    let functions = [3, 1, 1, 0, 1, 1, 0, 1, 1, 0];
    let vertices = [4, 2, 1, 0, 1, 1, 1, 2, 1];
    let edges = [4, 0, 1, 1, 2, 2, 0, 2, 3];
    let problem = samples::problem(2, &functions, &vertices, &edges, &[1, 0, 2, 2]);
    show::one(
        out,
        b"entries, not different vertices: ",
        problem,
        &[0, 0, 1],
        1,
    )
}

// Vertex 0 is a header, and contested.
fn first_vertex(out: &mut impl Write) -> io::Result<()> {
    let functions = [3, 1, 1, 0, 1, 1, 0, 1, 1, 0];
    let vertices = [3, 0, 1, 1, 1, 2, 1];
    let edges = [3, 0, 1, 1, 0, 1, 2];
    let problem = samples::problem(2, &functions, &vertices, &edges, &[1, 0, 1, 2]);
    show::one(out, b"vertex 0 again: ", problem, &[0, 0, 1], 0)
}

fn refusals(out: &mut impl Write) -> io::Result<()> {
    let mut short = [0u32; 3];
    show::line(
        out,
        b"P has no vertex 7: ",
        samples::p(14),
        &[0, 1, 1],
        7,
        &mut short,
    )?;
    show::line(
        out,
        b"R, three entries for four: ",
        samples::r(4),
        &[0, 0],
        1,
        &mut short,
    )?;
    let none: &mut [u32] = &mut short[..0];
    show::line(
        out,
        b"R, no entry, and never: ",
        samples::r(4),
        &[0, 0],
        3,
        none,
    )
}

fn main(rt: HostRuntime) -> io::Result<()> {
    let mut out = io::writer(&rt);
    cases_of_p(&mut out)?;
    cases_of_q_and_r(&mut out)?;
    function_first(&mut out)?;
    from_the_start(&mut out)?;
    twice(&mut out)?;
    first_vertex(&mut out)?;
    show::one(
        &mut out,
        b"the longest walk: ",
        longest::problem(),
        &[0, 1, 1],
        127,
    )?;
    refusals(&mut out)
}
