// What a stay in a loop adds to an edge that leaves it. Numbers are kept up to a cap.
#![tactic(auto)]

ghost use Rattle.std.specs.Prelude.{◌≡◌, ◌+◌, ◌*◌, ◌-◌, ◌≤◌, ◌<◌, min, length};
ghost use Rattle.model.specs.Graph.{loop};
ghost use Rattle.model.specs.Operations.{Checked};
ghost use Rattle.model.specs.Places.{most_vertices};
ghost use Rattle.lookup.specs.Lists.{loops_in};
ghost use Rattle.chains.specs.Chains.{LoopChains};
ghost use Rattle.stays.specs.Tables.{cap, Capped};
ghost use Rattle.stays.specs.Leaving.{leaving};

use chains::LoopTable;
use model::{Cycles, Numbers, limits, places};

// One more than the bound's limit.
const CAP: u64 = limits::MOST_BOUND + 1;

// Numbers by vertex, and for a loop by its header.
pub type VertexTable = [u64; places::MOST_VERTICES];

pub fn capped_sum(a: Cycles, b: Cycles) -> Cycles
    requires { (a.0 ≤ cap) × (b.0 ≤ cap) }
    ensures { result.0 ≡ min cap (a.0 + b.0) }
{
    Cycles((a.0 + b.0).min(CAP))
}

fn capped_product(times: u64, a: Cycles) -> Cycles
    ensures { result.0 ≡ min cap (times * a.0) }
{
    Cycles(times.saturating_mul(a.0).min(CAP))
}

// What loop i adds to an edge that leaves it: entering it, and all its iterations but the last.
pub fn stay_in(l: &Numbers, i: usize, entry: Cycles, turn: Cycles) -> Cycles
    requires fact_1 { Checked l.now }
    requires fact_2 { i < length (loops_in l.now) }
    requires fact_3 { entry.0 ≤ cap }
    ensures { result.0 ≡ min cap (entry.0 + ((loop (loops_in l.now) i).bound - 1) * turn.0) }
{
    let turns = capped_product(lookup::loop_bound(l, i) - 1, turn);
    capped_sum(entry, turns)
}

// What the edge from u to v leaves: the loops around u from the inside out, up to the first that holds v, since those around that one hold v too.
#[tactic(auto, using(chains::proofs::Checks::checked_bounds))]
pub fn leave(l: &Numbers, loops: &LoopTable, w: &VertexTable, u: usize, v: usize) -> Cycles
    requires fact_1 { Checked l.now }
    requires fact_2 { LoopChains l.now loops.now }
    requires fact_3 { Capped w.now }
    requires fact_4 { u < most_vertices }
    ensures { result.0 ≡ min cap (leaving l.now w.now u v) }
{
    let mut sum = Cycles(0);
    let mut next = loops[u];
    while 0 < next {
        let i = next - 1;
        let header = lookup::loop_header(l, i);
        if lookup::range_holds(header, lookup::loop_last(l, i), v) {
            return sum;
        }
        sum = capped_sum(sum, Cycles(w[header]));
        next = loops[places::MOST_VERTICES + i];
    }
    sum
}
