// What the edges to a vertex offer it: the numbers of a vertex, of entering a loop and of a loop's iteration, kept up to a cap.
#![tactic(auto)]

ghost use Rattle.std.specs.Prelude.{◌≡◌, ◌≤◌, ◌<◌, length};
ghost use Rattle.model.specs.Graph.{loop};
ghost use Rattle.model.specs.Places.{most_vertices};
ghost use Rattle.lookup.specs.Lists.{edges_in, loops_in};
ghost use Rattle.greatest.specs.Numbers.{ends};
ghost use Rattle.chains.specs.Chains.{edge_count, LoopChains, Chained};
ghost use Rattle.stays.specs.Tables.{cap, Capped};
ghost use Rattle.offers.specs.Offers.{Ready, comes, offered, best_into, visit_number, entry_number, turn_number};

use chains::{EdgeTable, LoopTable};
use model::{Cycles, Numbers, places};
use stays::VertexTable;

// Which edges to a vertex count: all, those from outside a range, or those from inside. The numbers are the range's header and last vertex.
#[derive(Clone, Copy)]
pub enum Origin {
    Anywhere,
    Outside(usize, usize),
    Inside(usize, usize),
}

fn counts(origin: Origin, u: usize) -> bool
    ensures { result ≡ comes origin u }
{
    match origin {
        Origin::Anywhere => true,
        Origin::Outside(header, last) => !lookup::range_holds(header, last, u),
        Origin::Inside(header, last) => lookup::range_holds(header, last, u),
    }
}

// What edge i to v brings, with `more` for the visit: nothing if it does not count.
#[tactic(auto, using(chains::proofs::Checks::checked_bounds))]
fn offer(
    l: &Numbers,
    loops: &LoopTable,
    d: &VertexTable,
    w: &VertexTable,
    v: usize,
    more: Cycles,
    origin: Origin,
    i: usize,
) -> Cycles
    requires fact_1 { LoopChains l.now loops.now }
    requires fact_2 { Ready l.now d.now w.now }
    requires fact_3 { more.0 ≤ cap }
    requires fact_4 { i < edge_count l.now }
    requires fact_5 { ends (edges_in l.now) i ≡ v }
    ensures { result.0 ≡ offered l.now d.now w.now v more.0 origin i }
{
    let u = lookup::edge_from(l, i);
    if counts(origin, u) {
        let before = stays::capped_sum(Cycles(d[u]), stays::leave(l, loops, w, u, v));
        return stays::capped_sum(before, more);
    }
    Cycles(0)
}

// The greatest number that an edge brings to v.
#[tactic(auto, using(chains::proofs::Checks::checked_bounds))]
fn best_into(
    l: &Numbers,
    edges: &EdgeTable,
    loops: &LoopTable,
    d: &VertexTable,
    w: &VertexTable,
    v: usize,
    more: Cycles,
    origin: Origin,
) -> Cycles
    requires fact_1 { Chained l.now edges.now loops.now }
    requires fact_2 { Ready l.now d.now w.now }
    requires fact_3 { more.0 ≤ cap }
    requires fact_4 { v < most_vertices }
    ensures { result.0 ≡ best_into l.now d.now w.now v more.0 origin (edge_count l.now) }
{
    let mut best = Cycles(0);
    let mut next = edges[v];
    while 0 < next {
        let i = next - 1;
        best = best.max(offer(l, loops, d, w, v, more, origin, i));
        next = edges[places::MOST_VERTICES + i];
    }
    best
}

// The number of a vertex that is no header: the greatest weight since the iteration around it began, or since the walk's start.
pub fn visit_number(
    l: &Numbers,
    edges: &EdgeTable,
    loops: &LoopTable,
    charge: &VertexTable,
    d: &VertexTable,
    w: &VertexTable,
    v: usize,
) -> Cycles
    requires fact_1 { Chained l.now edges.now loops.now }
    requires fact_2 { Ready l.now d.now w.now }
    requires fact_3 { Capped charge.now }
    requires fact_4 { v < most_vertices }
    ensures { result.0 ≡ visit_number l.now charge.now d.now w.now v }
{
    let own = Cycles(charge[v]);
    if v == 0 {
        return own;
    }
    best_into(l, edges, loops, d, w, v, own, Origin::Anywhere)
}

// The number of entering loop i: the greatest weight that the iteration around it, or the walk, has with the entry.
#[tactic(auto, using(chains::proofs::Checks::checked_bounds))]
pub fn entry_number(
    l: &Numbers,
    edges: &EdgeTable,
    loops: &LoopTable,
    enter: &VertexTable,
    d: &VertexTable,
    w: &VertexTable,
    i: usize,
) -> Cycles
    requires fact_1 { Chained l.now edges.now loops.now }
    requires fact_2 { Ready l.now d.now w.now }
    requires fact_3 { Capped enter.now }
    requires fact_4 { i < length (loops_in l.now) }
    ensures { result.0 ≡ entry_number l.now enter.now d.now w.now (loop (loops_in l.now) i) }
{
    let header = lookup::loop_header(l, i);
    let entry = Cycles(enter[header]);
    if header == 0 {
        return entry;
    }
    best_into(
        l,
        edges,
        loops,
        d,
        w,
        header,
        entry,
        Origin::Outside(header, lookup::loop_last(l, i)),
    )
}

// The number of loop i's iteration: the greatest weight from its header until just before the next visit to it.
#[tactic(auto, using(chains::proofs::Checks::checked_bounds))]
pub fn turn_number(
    l: &Numbers,
    edges: &EdgeTable,
    loops: &LoopTable,
    d: &VertexTable,
    w: &VertexTable,
    i: usize,
) -> Cycles
    requires fact_1 { Chained l.now edges.now loops.now }
    requires fact_2 { Ready l.now d.now w.now }
    requires fact_3 { i < length (loops_in l.now) }
    ensures { result.0 ≡ turn_number l.now d.now w.now (loop (loops_in l.now) i) }
{
    let header = lookup::loop_header(l, i);
    best_into(
        l,
        edges,
        loops,
        d,
        w,
        header,
        Cycles(0),
        Origin::Inside(header, lookup::loop_last(l, i)),
    )
}
