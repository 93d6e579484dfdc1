// The worked problems P, Q and R of document 01, with check costs too, two of request 3/14, and S, where splitting a region raises the bound: each from its numbers in file order.
#![tactic(auto)]

ghost use Rattle.std.specs.Prelude.{◌+◌, ◌≤◌, ◌≡◌, [], ◌∷◌, length};
ghost use Rattle.std.proofs.lemmas.List.Edits.{sets};
ghost use Rattle.model.specs.Places as spot;
ghost use Rattle.model.specs.Numbers.{problem_of};
ghost use Rattle.examples.specs.Problems.{checked_p, P, checked_q, Q, checked_r, R, one_of_two, met_twice};
ghost use Rattle.samples.specs.Listed.{Fits, listed};

use model::{Numbers, Problem, places};

// The numbers of a part, stored from a place on.
fn put(l: &mut Numbers, at: usize, part: &[u64])
    requires { at + length part.now ≤ spot.end }
    ensures { l.new ≡ sets l.old at part.now }
{
    l[at..at + part.len()].copy_from_slice(part);
}

// A problem from its lists: of each its count, and then its items' numbers.
pub fn problem(
    scratchpad: u64,
    functions: &[u64],
    vertices: &[u64],
    edges: &[u64],
    loops: &[u64],
) -> Problem
    requires { Fits functions.now vertices.now edges.now loops.now }
    ensures { result ≡ problem_of (listed scratchpad functions.now vertices.now edges.now loops.now) }
{
    let mut l = [0u64; places::END];
    l[places::EDITION] = 1;
    l[places::SCRATCHPAD] = scratchpad;
    put(&mut l, places::FUNCTION_COUNT, functions);
    put(&mut l, places::VERTEX_COUNT, vertices);
    put(&mut l, places::EDGE_COUNT, edges);
    put(&mut l, places::LOOP_COUNT, loops);
    records::problem_of(&l)
}

// P has a scratchpad of 14; M5 asks it with 13 too. Three functions of sizes 8, 4, 6, load costs 5, 3, 4 and these check costs; vertices of functions
// 0 1 0 2 0 1 0, each cost 10; a chain of six edges.
pub fn checked_p(scratchpad: u64, first: u64, second: u64, third: u64) -> Problem
    ensures { result ≡ checked_p scratchpad (first ∷ second ∷ third ∷ []) }
{
    let functions = [3u64, 8, 5, first, 4, 3, second, 6, 4, third];
    let vertices = [7u64, 0, 10, 1, 10, 0, 10, 2, 10, 0, 10, 1, 10, 0, 10];
    let edges = [6u64, 0, 1, 1, 2, 2, 3, 3, 4, 4, 5, 5, 6];
    problem(scratchpad, &functions, &vertices, &edges, &[0])
}

pub fn p(scratchpad: u64) -> Problem
    ensures { result ≡ P scratchpad }
{
    checked_p(scratchpad, 0, 0, 0)
}

// Two functions of size 1, load costs 5, 3 and these check costs; vertices of functions 0 1 1 0 with costs 10, 10, 20, 10; two branches.
pub fn checked_q(first: u64, second: u64) -> Problem
    ensures { result ≡ checked_q (1 ∷ 1 ∷ []) (first ∷ second ∷ []) }
{
    let functions = [2u64, 1, 5, first, 1, 3, second];
    let vertices = [4u64, 0, 10, 1, 10, 1, 20, 0, 10];
    let edges = [4u64, 0, 1, 0, 2, 1, 3, 2, 3];
    problem(2, &functions, &vertices, &edges, &[0])
}

pub fn q() -> Problem
    ensures { result ≡ Q }
{
    checked_q(0, 0)
}

// R has bound 4; M9 asks it with bound 1 too, and 7/14 with 4,096 and more. Q's functions; vertices of functions 0 0 1 0 with costs 1, 2, 7, 1; one loop,
// 1 to 2.
pub fn checked_r(bound: u64, first: u64, second: u64) -> Problem
    ensures { result ≡ checked_r bound (first ∷ second ∷ []) }
{
    let functions = [2u64, 1, 5, first, 1, 3, second];
    let vertices = [4u64, 0, 1, 0, 2, 1, 7, 0, 1];
    let edges = [4u64, 0, 1, 1, 2, 1, 3, 2, 1];
    let loops = [1u64, 1, 2, bound];
    problem(2, &functions, &vertices, &edges, &loops)
}

pub fn r(bound: u64) -> Problem
    ensures { result ≡ R bound }
{
    checked_r(bound, 0, 0)
}

// 3/14's program that calls one of two helpers: Q's edges; three functions of size 1 and load costs 5, 3, 4; vertices of functions 0 1 2 0, each cost 1.
pub fn one_of_two() -> Problem
    ensures { result ≡ one_of_two }
{
    let functions = [3u64, 1, 5, 0, 1, 3, 0, 1, 4, 0];
    let vertices = [4u64, 0, 1, 1, 1, 2, 1, 0, 1];
    let edges = [4u64, 0, 1, 0, 2, 1, 3, 2, 3];
    problem(3, &functions, &vertices, &edges, &[0])
}

// 3/14's program that may meet function 1 first before a loop or in it: Q's functions; vertices of functions 0 1 0 1 0, each cost 1; one loop, 2 to 3.
pub fn met_twice() -> Problem
    ensures { result ≡ met_twice }
{
    let functions = [2u64, 1, 5, 0, 1, 3, 0];
    let vertices = [5u64, 0, 1, 1, 1, 0, 1, 1, 1, 0, 1];
    let edges = [6u64, 0, 1, 0, 2, 1, 2, 2, 3, 3, 2, 3, 4];
    problem(2, &functions, &vertices, &edges, &[1, 2, 3, 2])
}

// S: splitting a region raises the bound. With functions 0 and 1 in one region, vertex 1 is contested and costs its load on the short branch alone; with a
// region of its own, function 1 is cold and is charged on every branch. Three functions of size 1 and load costs 5, 3, 4; a short branch through function 1
// and a long one through function 2.
pub fn s() -> Problem {
    let functions = [3u64, 1, 5, 0, 1, 3, 0, 1, 4, 0];
    let vertices = [4u64, 0, 10, 1, 1, 2, 100, 2, 10];
    let edges = [4u64, 0, 1, 0, 2, 1, 3, 2, 3];
    problem(3, &functions, &vertices, &edges, &[0])
}
