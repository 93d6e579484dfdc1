// The worked cases of request 3/14, each as Bound's four numbers: where either total is the smaller, where vertex 0 is a header, and where a loop holds
// several early functions and an inner loop. Then totals next to the limit. Layouts are empty, so that each function has a region of its own.
#![tactic(auto)]

use model::Problem;
use prints::{number, text};
use std::io;
use std::io::Write;

fn bounded(out: &mut impl Write, title: &[u8], problem: Problem) -> io::Result<()> {
    text(out, title)?;
    let answer = bound::bound(problem, b"");
    match answer {
        Ok(b) => {
            number(out, b"\nneed ", b.need.0)?;
            number(out, b"\ncharged ", b.contested as u64)?;
            number(out, b"\nfirst ", b.first.0)?;
            number(out, b"\nbound ", b.bound.0)?;
        }
        Err(f) => {
            prints::placed(out, b"\nrefused ", f.number(), f.place())?;
        }
    }
    text(out, b"\n")
}

// A walk enters the loop where it starts, and pays there.
fn header_at_start(out: &mut impl Write) -> io::Result<()> {
    let functions = [1, 1, 5, 0];
    let vertices = [2, 0, 1, 0, 1];
    let edges = [2, 0, 0, 0, 1];
    let problem = samples::problem(1, &functions, &vertices, &edges, &[1, 0, 0, 2]);
    bounded(out, b"vertex 0 is a header:", problem)
}

// The outer loop's entry pays for functions 1 and 2, the inner loop's for nothing.
fn inner_loop(out: &mut impl Write) -> io::Result<()> {
    let functions = [3, 1, 5, 0, 1, 3, 0, 1, 4, 0];
    let vertices = [5, 0, 1, 0, 1, 1, 1, 2, 1, 0, 1];
    let edges = [6, 0, 1, 1, 2, 1, 4, 2, 2, 2, 3, 3, 1];
    let loops = [2, 1, 3, 2, 2, 2, 3];
    let problem = samples::problem(3, &functions, &vertices, &edges, &loops);
    bounded(out, b"an inner loop:", problem)
}

// Three nested loops from vertex 0 on, of 10^18 - 4,000 cycles in all, and then a branch through function 1 or 2, whose load costs are 4 and 3. If the
// vertex that joins them is of function 0, the second total is the smaller, by 3; if it is of function 1, document 01's is, by 1.
fn near_limit(out: &mut impl Write, title: &[u8], joins: u64, cost: u64) -> io::Result<()> {
    let functions = [3, 1, 5, 0, 1, 4, 0, 1, 3, 0];
    let vertices = [6, 0, 3999, 0, 3999, 0, 15624999, 1, 0, 2, 0, joins, cost];
    let edges = [9, 0, 1, 1, 2, 2, 0, 2, 1, 2, 2, 2, 3, 2, 4, 3, 5, 4, 5];
    let loops = [3, 0, 2, 4000, 1, 2, 4000, 2, 2, 4000];
    let problem = samples::problem(3, &functions, &vertices, &edges, &loops);
    bounded(out, title, problem)
}

fn main(rt: HostRuntime) -> io::Result<()> {
    let mut out = io::writer(&rt);
    bounded(&mut out, b"one of two helpers:", samples::one_of_two())?;
    bounded(
        &mut out,
        b"met before a loop and in it:",
        samples::met_twice(),
    )?;
    header_at_start(&mut out)?;
    inner_loop(&mut out)?;
    near_limit(&mut out, b"document 01's total past the limit:", 0, 3991)?;
    near_limit(&mut out, b"both past it:", 0, 3992)?;
    near_limit(&mut out, b"the second total past the limit:", 1, 3988)?;
    near_limit(&mut out, b"both past it:", 1, 3989)
}
