// Drawings D1 to D6: the one problem of each (a vertex as its function and its own cost), and under some layouts the bound and the cycles of a walk that takes
// as many as any. Then a drawing for each refusal of Inline. Functions are of one byte, and those of D1 to D6 have load costs 5, 3 and 4.
#![tactic(auto)]

mod draw;
mod refused;
mod show;

use draw::NONE;
use model::drawn;
use std::io;
use std::io::Write;

// For two functions: each in a region of its own, and both in one.
const PAIRS: [u8; 4] = [0, 1, 0, 0];

// A helper of two vertices, called twice.
fn d1(out: &mut impl Write) -> io::Result<()> {
    let mut d = [0u32; drawn::END];
    draw::functions(&mut d, 2);
    let caller = [3, 1, 10, 1, 20, NONE, 30];
    draw::function(&mut d, 0, 5, &caller, &[2, 0, 1, 1, 2], &[0]);
    draw::function(&mut d, 1, 3, &[2, NONE, 2, NONE, 3], &[1, 0, 1], &[0]);
    show::worked(out, b"D1:", &d, &PAIRS, &[0, 1, 2, 3, 4, 5, 6])
}

// A helper that calls another, on one of two branches.
fn d2(out: &mut impl Write) -> io::Result<()> {
    let mut d = [0u32; drawn::END];
    draw::functions(&mut d, 3);
    let caller = [3, NONE, 1, 1, 2, NONE, 3];
    draw::function(&mut d, 0, 5, &caller, &[3, 0, 1, 0, 2, 1, 2], &[0]);
    draw::function(&mut d, 1, 3, &[2, 2, 4, NONE, 5], &[1, 0, 1], &[0]);
    draw::function(&mut d, 2, 4, &[1, NONE, 6], &[0], &[0]);
    let layouts = [0, 1, 2, 0, 1, 0, 0, 0, 0];
    show::worked(out, b"D2:", &d, &layouts, &[0, 1, 2, 3, 4, 5])
}

// A helper with a loop, called at the last vertex of a loop.
fn d3(out: &mut impl Write) -> io::Result<()> {
    let mut d = [0u32; drawn::END];
    draw::functions(&mut d, 2);
    let caller = [4, NONE, 1, NONE, 2, 1, 7, NONE, 1];
    let edges = [4, 0, 1, 1, 2, 1, 3, 2, 1];
    draw::function(&mut d, 0, 5, &caller, &edges, &[1, 1, 2, 4]);
    let helper = [3, NONE, 1, NONE, 2, NONE, 1];
    draw::function(&mut d, 1, 3, &helper, &[3, 0, 1, 1, 1, 1, 2], &[1, 1, 1, 3]);
    let walk = [
        0u32, 1, 2, 3, 4, 4, 4, 5, 1, 2, 3, 4, 4, 4, 5, 1, 2, 3, 4, 4, 4, 5, 1, 6,
    ];
    show::worked(out, b"D3:", &d, &PAIRS, &walk)
}

// A call at the only vertex of a loop.
fn d4(out: &mut impl Write) -> io::Result<()> {
    let mut d = [0u32; drawn::END];
    draw::functions(&mut d, 2);
    let caller = [3, NONE, 1, 1, 2, NONE, 1];
    draw::function(&mut d, 0, 5, &caller, &[3, 0, 1, 1, 1, 1, 2], &[1, 1, 1, 3]);
    draw::function(&mut d, 1, 3, &[1, NONE, 7], &[0], &[0]);
    show::worked(out, b"D4:", &d, &PAIRS, &[0, 1, 2, 1, 2, 1, 2, 3])
}

// As D4, at vertex 0, and vertex 0 of the helper heads a loop too.
fn d5(out: &mut impl Write) -> io::Result<()> {
    let mut d = [0u32; drawn::END];
    draw::functions(&mut d, 2);
    let edges = [2, 0, 0, 0, 1];
    draw::function(&mut d, 0, 5, &[2, 1, 1, NONE, 2], &edges, &[1, 0, 0, 2]);
    draw::function(&mut d, 1, 3, &[2, NONE, 1, NONE, 1], &edges, &[1, 0, 0, 3]);
    show::worked(out, b"D5:", &d, &PAIRS, &[0, 1, 1, 1, 2, 0, 1, 1, 1, 2, 3])
}

// A call at the last vertex of a loop that goes round at its header.
fn d6(out: &mut impl Write) -> io::Result<()> {
    let mut d = [0u32; drawn::END];
    draw::functions(&mut d, 2);
    let caller = [4, NONE, 1, NONE, 2, 1, 7, NONE, 1];
    let edges = [4, 0, 1, 1, 1, 1, 2, 2, 3];
    draw::function(&mut d, 0, 5, &caller, &edges, &[1, 1, 2, 4]);
    draw::function(&mut d, 1, 3, &[1, NONE, 1], &[0], &[0]);
    show::worked(out, b"D6:", &d, &PAIRS, &[0, 1, 1, 1, 1, 2, 3, 4])
}

fn main(rt: HostRuntime) -> io::Result<()> {
    let mut out = io::writer(&rt);
    d1(&mut out)?;
    d2(&mut out)?;
    d3(&mut out)?;
    d4(&mut out)?;
    d5(&mut out)?;
    d6(&mut out)?;
    refused::all(&mut out)
}
