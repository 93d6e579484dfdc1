// M1 to M9 of document 01, R with the greatest bound and past it, a layout that leaves functions off, and a problem where splitting a region raises the
// bound: what Interference, Bound and Run give. M1 is part of Table I of document 003, which is printed whole.
#![tactic(auto)]

mod set_marks;
mod show;

use model::{Problem, limits};
use prints::text;
use std::io;
use std::io::Write;

fn bound(out: &mut impl Write, name: &[u8], problem: Problem, layout: &[u8]) -> io::Result<()> {
    text(out, name)?;
    show::bounded(out, bound::bound(problem, layout))
}

fn run(
    out: &mut impl Write,
    name: &[u8],
    problem: Problem,
    layout: &[u8],
    walk: &[u32],
) -> io::Result<()> {
    text(out, name)?;
    let mut held = [0u8; limits::MOST_REGIONS];
    show::ran(out, run::run(problem, layout, walk, &mut held))
}

fn marks_of_p(out: &mut impl Write) -> io::Result<()> {
    let walk = [0u32, 1, 2, 3, 4, 5, 6];
    let second = [0u8, 1, 1];
    bound(out, b"M2 P, layout 0 1 1: ", samples::p(14), &second)?;
    run(
        out,
        b"M2 P, layout 0 1 1, the chain: ",
        samples::p(14),
        &second,
        &walk,
    )?;
    let third = [0u8, 0, 1];
    bound(out, b"M3 P, layout 0 0 1: ", samples::p(14), &third)?;
    run(
        out,
        b"M3 P, layout 0 0 1, the chain: ",
        samples::p(14),
        &third,
        &walk,
    )?;
    let shared = [0u8, 0, 0];
    bound(out, b"M4 P, layout 0 0 0: ", samples::p(14), &shared)?;
    let apart = [0u8, 1, 2];
    bound(out, b"M5 P, layout 0 1 2: ", samples::p(14), &apart)?;
    bound(
        out,
        b"M5 P with scratchpad 13, layout 0 1 1: ",
        samples::p(13),
        &second,
    )
}

fn mark_of_q(out: &mut impl Write) -> io::Result<()> {
    let layout = [0u8, 1];
    let walk = [0u32, 2, 3];
    bound(out, b"M6 Q, layout 0 1: ", samples::q(), &layout)?;
    run(
        out,
        b"M6 Q, layout 0 1, walk 0 2 3: ",
        samples::q(),
        &layout,
        &walk,
    )
}

fn marks_of_r(out: &mut impl Write) -> io::Result<()> {
    let layout = [0u8, 1];
    let shared = [0u8, 0];
    let longest = [0u32, 1, 2, 1, 2, 1, 2, 1, 3];
    let fifth = [0u32, 1, 2, 1, 2, 1, 2, 1, 2, 1, 3];
    bound(out, b"M7 R, layout 0 1: ", samples::r(4), &layout)?;
    bound(out, b"M8 R, layout 0 0: ", samples::r(4), &shared)?;
    run(
        out,
        b"M8 R, layout 0 0, four iterations: ",
        samples::r(4),
        &shared,
        &longest,
    )?;
    run(
        out,
        b"M9 R, a fifth visit to vertex 1: ",
        samples::r(4),
        &layout,
        &fifth,
    )?;
    bound(
        out,
        b"M9 R with bound 1, layout 0 1: ",
        samples::r(1),
        &layout,
    )?;
    bound(
        out,
        b"M9 R with bound 1, layout 0 0: ",
        samples::r(1),
        &shared,
    )
}

// R with the greatest bound, and with greater ones, which are out of range.
fn greatest_bound(out: &mut impl Write) -> io::Result<()> {
    let layout = [0u8, 1];
    bound(
        out,
        b"R with bound 4,096, layout 0 1: ",
        samples::r(4096),
        &layout,
    )?;
    bound(
        out,
        b"R with bound 4,097, layout 0 1: ",
        samples::r(4097),
        &layout,
    )?;
    bound(
        out,
        b"R with bound 65,535, layout 0 1: ",
        samples::r(65535),
        &layout,
    )
}

// No function is listed, and each has a region of its own.
fn left_off(out: &mut impl Write) -> io::Result<()> {
    let walk = [0u32, 1, 2, 3, 4, 5, 6];
    bound(
        out,
        b"P with scratchpad 18, empty layout: ",
        samples::p(18),
        b"",
    )?;
    text(out, b"P with scratchpad 18, empty layout, the chain: ")?;
    let mut held = [0u8; limits::MOST_REGIONS];
    show::ran(out, run::run(samples::p(18), b"", &walk, &mut held))?;
    show::held(out, b"held in region 0: ", held[0])?;
    show::held(out, b", 1: ", held[1])?;
    show::held(out, b", 2: ", held[2])?;
    text(out, b"\n")
}

fn splitting(out: &mut impl Write) -> io::Result<()> {
    let shared = [0u8, 0, 1];
    let split = [0u8, 2, 1];
    bound(
        out,
        b"S, functions 0 and 1 share a region: ",
        samples::s(),
        &shared,
    )?;
    bound(out, b"S, each function has its own: ", samples::s(), &split)
}

fn main(rt: HostRuntime) -> io::Result<()> {
    let mut out = io::writer(&rt);
    set_marks::table_one(&mut out)?;
    marks_of_p(&mut out)?;
    mark_of_q(&mut out)?;
    marks_of_r(&mut out)?;
    greatest_bound(&mut out)?;
    left_off(&mut out)?;
    splitting(&mut out)
}
