// A drawing for each refusal of Inline, and next to some of them one that is accepted.
ghost use Rattle.std.specs.Prelude.{◌+◌, ◌≤◌, length};
ghost use Rattle.model.specs.Places as spot;

use crate::draw::NONE;
use crate::{draw, show};
use model::drawn;
use std::io;
use std::io::Write;

// Where the size of function 1 stands.
const SECOND_SIZE: usize = drawn::FUNCTIONS + drawn::WIDTH + drawn::SIZE;

// One function is drawn, and so many are counted: 3 at 0.
fn miscounted(out: &mut impl Write, title: &[u8], count: u32) -> io::Result<()> {
    let mut d = [0u32; drawn::END];
    draw::functions(&mut d, count);
    draw::chain(&mut d, 0, NONE, 0, 1);
    show::counted(out, title, &d)
}

// Function 0 calls function 1, which has two vertices and these edges and loops.
fn called(out: &mut impl Write, title: &[u8], edges: &[u32], loops: &[u32]) -> io::Result<()>
    requires { (spot.edge_count + length edges.now ≤ spot.loop_count) × (spot.loop_count + length loops.now ≤ spot.end) }
{
    let mut d = [0u32; drawn::END];
    draw::functions(&mut d, 2);
    draw::chain(&mut d, 0, 1, 1, 1);
    draw::function(&mut d, 1, 1, &[2, NONE, 1, NONE, 1], edges, loops);
    show::counted(out, title, &d)
}

// 4 and 6 to 9 at 1: none of them has 1 as its own place in the graph.
fn bad_graphs(out: &mut impl Write) -> io::Result<()> {
    called(out, b"1: edges 0-1 0-0:", &[2, 0, 1, 0, 0], &[0])?;
    called(out, b"1: no edge:", &[0], &[0])?;
    called(out, b"1: loop 0 to 1:", &[1, 0, 1], &[1, 0, 1, 2])?;
    called(out, b"1: edge 0-0, no loop:", &[2, 0, 0, 0, 1], &[0])?;
    called(out, b"1: no edge back:", &[1, 0, 1], &[1, 0, 0, 2])
}

// The greatest bound, and one more, which is 3 at 1.
fn loop_bounds(out: &mut impl Write) -> io::Result<()> {
    called(
        out,
        b"1: loop 0 to 0, bound 4,096:",
        &[2, 0, 0, 0, 1],
        &[1, 0, 0, 4096],
    )?;
    called(
        out,
        b"1: loop 0 to 0, bound 4,097:",
        &[2, 0, 0, 0, 1],
        &[1, 0, 0, 4097],
    )
}

// 3 at 1, and 9 at 0 before it.
fn bad_sizes(out: &mut impl Write) -> io::Result<()> {
    let mut d = [0u32; drawn::END];
    draw::functions(&mut d, 2);
    draw::chain(&mut d, 0, 1, 1, 1);
    draw::chain(&mut d, 1, NONE, 0, 1);
    d[SECOND_SIZE] = 0;
    show::counted(out, b"1: size 0:", &d)?;
    draw::function(&mut d, 0, 1, &[2, 1, 1, NONE, 1], &[1, 0, 1], &[1, 0, 0, 2]);
    show::counted(out, b"0: no edge back, 1: size 0:", &d)
}

// 3 at 1: there is no function 2.
fn unknown_callee(out: &mut impl Write) -> io::Result<()> {
    let mut d = [0u32; drawn::END];
    draw::functions(&mut d, 2);
    draw::chain(&mut d, 0, 1, 1, 1);
    draw::chain(&mut d, 1, 2, 1, 1);
    show::counted(out, b"1 calls 2 of 0 and 1:", &d)
}

// 20 at 1, also where 18 at 0 applies.
fn last_calls(out: &mut impl Write) -> io::Result<()> {
    let mut d = [0u32; drawn::END];
    draw::functions(&mut d, 2);
    draw::chain(&mut d, 0, NONE, 0, 1);
    draw::function(&mut d, 1, 1, &[1, 0, 1], &[0], &[0]);
    show::counted(out, b"last of 1 calls 0:", &d)?;
    draw::chain(&mut d, 0, 0, 1, 1);
    show::counted(out, b"last of 1 calls 0, 0 calls 0:", &d)
}

// 18 at 2: function 1 does not reach itself.
fn recursive(out: &mut impl Write) -> io::Result<()> {
    let mut d = [0u32; drawn::END];
    draw::functions(&mut d, 4);
    draw::chain(&mut d, 0, NONE, 0, 1);
    draw::chain(&mut d, 1, 2, 1, 1);
    draw::chain(&mut d, 2, 3, 1, 1);
    draw::chain(&mut d, 3, 2, 1, 1);
    show::counted(out, b"1 calls 2, 2 calls 3, 3 calls 2:", &d)
}

// Calls of a helper of two vertices, and some vertices behind them: 128 vertices, and one more, which is 19.
fn many_vertices(out: &mut impl Write) -> io::Result<()> {
    let mut d = [0u32; drawn::END];
    draw::functions(&mut d, 2);
    draw::chain(&mut d, 1, NONE, 0, 2);
    draw::chain(&mut d, 0, 1, 42, 2);
    show::counted(out, b"42 calls and 2 vertices:", &d)?;
    draw::chain(&mut d, 0, 1, 42, 3);
    show::counted(out, b"42 calls and 3 vertices:", &d)
}

// 19 by more vertices than a machine number counts, and none of them where function 0 calls nothing.
fn towers(out: &mut impl Write) -> io::Result<()> {
    let mut d = [0u32; drawn::END];
    draw::functions(&mut d, 32);
    draw::tower(&mut d);
    show::counted(out, b"each calls the next 127 times:", &d)?;
    draw::chain(&mut d, 0, NONE, 0, 1);
    show::counted(out, b"each but 0:", &d)
}

pub fn all(out: &mut impl Write) -> io::Result<()> {
    miscounted(out, b"no function:", 0)?;
    miscounted(out, b"33 functions:", 33)?;
    bad_graphs(out)?;
    loop_bounds(out)?;
    bad_sizes(out)?;
    unknown_callee(out)?;
    last_calls(out)?;
    recursive(out)?;
    many_vertices(out)?;
    towers(out)
}
