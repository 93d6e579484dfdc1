// Edges by where they lead and loops by what they hold, as chains: from a vertex's last one back to its first.
#![tactic(auto)]

ghost use Rattle.std.specs.Prelude.{◌≤◌, ◌<◌, ◌≡◌, length};
ghost use Rattle.model.specs.Operations.{Checked};
ghost use Rattle.model.specs.Places.{most_vertices};
ghost use Rattle.lookup.specs.Lists.{loops_in};
ghost use Rattle.chains.specs.Chains.{loop_places, EdgeChains, LoopChains, Overwritten, BeginsAt};

use model::{Numbers, places};

// A place for each vertex, and behind those one for each edge or loop.
pub const EDGE_PLACES: usize = places::MOST_VERTICES + places::MOST_EDGES;

pub const LOOP_PLACES: usize = places::MOST_VERTICES + places::MOST_LOOPS;

pub type EdgeTable = [usize; EDGE_PLACES];

pub type LoopTable = [usize; LOOP_PLACES];

// The edges as chains by where they lead: the place of v has one more than the number of the last edge to v, and that of edge i one more than that of
// the last edge before edge i to the same vertex. 0 ends a chain.
#[tactic(auto, using(crate::proofs::Checks::checked_bounds))]
pub fn edge_chains(l: &Numbers) -> EdgeTable
    requires { Checked l.now }
    ensures { EdgeChains l.now result }
{
    let mut edges = [0usize; EDGE_PLACES];
    let count = lookup::edge_count(l);
    for i in 0..count {
        let to = lookup::edge_to(l, i);
        edges[places::MOST_VERTICES + i] = edges[to];
        edges[to] = i + 1;
    }
    edges
}

// The places from `first` on, up to `end`, get one number.
fn overwrite(loops: &mut LoopTable, first: usize, end: usize, with: usize)
    requires fact_1 { length loops.old ≡ loop_places }
    requires fact_2 { first ≤ end }
    requires fact_3 { end ≤ most_vertices }
    ensures { Overwritten loops.old loops.new first end with }
{
    loops[first..end].fill(with);
}

// The loops as chains by what they hold, from the inside out: the place of v has one more than the number of the last loop that holds v, and that of
// loop i one more than that of the last loop before loop i that holds its header.
#[tactic(auto, using(crate::proofs::Checks::checked_bounds))]
pub fn loop_chains(l: &Numbers) -> LoopTable
    requires { Checked l.now }
    ensures { LoopChains l.now result }
{
    let mut loops = [0usize; LOOP_PLACES];
    let count = lookup::loop_count(l);
    for i in 0..count {
        let header = lookup::loop_header(l, i);
        let last = lookup::loop_last(l, i);
        loops[places::MOST_VERTICES + i] = loops[header];
        overwrite(&mut loops, header, last + 1, i + 1);
    }
    loops
}

// The loop that begins at v, or the number of loops if none does. If one does, no later loop holds v.
pub fn loop_at(l: &Numbers, loops: &LoopTable, v: usize) -> usize
    requires fact_1 { Checked l.now }
    requires fact_2 { LoopChains l.now loops.now }
    requires fact_3 { v < most_vertices }
    ensures { BeginsAt (loops_in l.now) v result }
{
    let next = loops[v];
    if next == 0 {
        return lookup::loop_count(l);
    }
    let i = next - 1;
    if lookup::loop_header(l, i) == v {
        return i;
    }
    lookup::loop_count(l)
}
