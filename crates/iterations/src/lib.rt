// The greatest weight over all lawful walks, of a charge at each visit and one at each entry of a loop: found a vertex and a loop's iteration at a time.
#![tactic(auto)]

ghost use Rattle.std.specs.Prelude.{◌<◌, length};
ghost use Rattle.model.specs.Numbers.{problem_of};
ghost use Rattle.model.specs.Graph.{loop, loops_of};
ghost use Rattle.model.specs.Walks.{weights};
ghost use Rattle.model.specs.Operations.{Checked};
ghost use Rattle.lookup.specs.Lists.{loops_in};
ghost use Rattle.greatest.specs.Greatest.{GreatestCapped};
ghost use Rattle.chains.specs.Chains.{Chained};
ghost use Rattle.stays.specs.Tables.{cap, Capped, by_header, by_vertex};
ghost use Rattle.iterations.specs.Filling.{Filling, Since, ToLoop, PastLoop, Part};

use chains::{EdgeTable, LoopTable};
use model::{Cycles, Numbers, places};
use stays::VertexTable;

// The numbers of the vertices from `first` to `to`, the latter not counted, and of the loops among them: in d those of vertices, and by a loop's header
// in e that of entering it and in w what it adds to an edge that leaves it.
#[cycle(iteration_range)]
fn range(
    l: &Numbers,
    edges: &EdgeTable,
    loops: &LoopTable,
    charge: &VertexTable,
    enter: &VertexTable,
    d: &mut VertexTable,
    e: &mut VertexTable,
    w: &mut VertexTable,
    first: usize,
    to: usize,
)
    requires { (Chained l.now edges.now loops.now) × ((Part l.now first to) × (Filling l.now charge.now enter.now d.old e.old w.old first (Since first first))) }
    ensures { Filling l.now charge.now enter.now d.new e.new w.new to (Since first to) }
{
    let count = lookup::loop_count(l);
    let mut v = first;
    while v < to {
        let i = chains::loop_at(l, loops, v);
        if i < count {
            iteration(l, edges, loops, charge, enter, d, e, w, i);
            v = lookup::loop_last(l, i) + 1;
        } else {
            let number = offers::visit_number(l, edges, loops, charge, d, w, v);
            d[v] = number.0;
            v += 1;
        }
    }
}

// The numbers of loop i: of entering it, of the vertices in its range and the loops inside it, and of its iteration, which rests on those.
#[cycle(iteration_range)]
#[tactic(auto, using(chains::proofs::Checks::checked_bounds))]
fn iteration(
    l: &Numbers,
    edges: &EdgeTable,
    loops: &LoopTable,
    charge: &VertexTable,
    enter: &VertexTable,
    d: &mut VertexTable,
    e: &mut VertexTable,
    w: &mut VertexTable,
    i: usize,
)
    requires { (Chained l.now edges.now loops.now) × ((i < length (loops_in l.now)) × (ToLoop l.now charge.now enter.now d.old e.old w.old (loop (loops_in l.now) i))) }
    ensures { PastLoop l.now charge.now enter.now d.new e.new w.new (loop (loops_in l.now) i) }
{
    let header = lookup::loop_header(l, i);
    let last = lookup::loop_last(l, i);
    let entry = offers::entry_number(l, edges, loops, enter, d, w, i);
    e[header] = entry.0;
    w[header] = entry.0;
    d[header] = charge[header];
    range(
        l,
        edges,
        loops,
        charge,
        enter,
        d,
        e,
        w,
        header + 1,
        last + 1,
    );
    let turn = offers::turn_number(l, edges, loops, d, w, i);
    let stay = stays::stay_in(l, i, Cycles(e[header]), turn);
    w[header] = stay.0;
}

// The greatest weight over all lawful walks, exact up to the bound's limit.
#[tactic(auto, using(chains::proofs::Checks::checked_bounds))]
pub fn greatest_weight(
    l: &Numbers,
    edges: &EdgeTable,
    loops: &LoopTable,
    charge: &VertexTable,
    enter: &VertexTable,
) -> Cycles
    requires fact_1 { Chained l.now edges.now loops.now }
    requires fact_2 { Checked l.now }
    requires fact_3 { Capped charge.now }
    requires fact_4 { Capped enter.now }
    ensures { GreatestCapped (problem_of l.now) cap (weights (loops_of (problem_of l.now)) (by_vertex charge.now) (by_header enter.now)) result.0 }
{
    let vertices = lookup::vertex_count(l);
    let mut d = [0u64; places::MOST_VERTICES];
    let mut e = [0u64; places::MOST_VERTICES];
    let mut w = [0u64; places::MOST_VERTICES];
    range(
        l, edges, loops, charge, enter, &mut d, &mut e, &mut w, 0, vertices,
    );
    Cycles(d[vertices - 1])
}
