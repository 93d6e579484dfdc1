// Entered vertices as flags, each 0 or 1, in one pass over the edges. A problem is its checked numbers.
#![tactic(auto)]

ghost use Rattle.std.specs.Prelude.{◌≡◌, cond, ◌<◌, length};
ghost use Rattle.model.specs.Numbers.{problem_of};
ghost use Rattle.model.specs.Graph.{edges_of};
ghost use Rattle.model.specs.Operations.{Checked};
ghost use Rattle.entered.specs.Entered.{EnteredTold, crosses};

use model::{Numbers, places};

// A flag for each vertex.
pub type EnteredFlags = [u8; places::MOST_VERTICES];

// Whether edge i leads from one function to another.
#[tactic(auto, using(lookup::proofs::Places::facts, lookup::proofs::Places::from_below, lookup::proofs::Places::to_below))]
fn is_crossing(l: &Numbers, i: usize) -> bool
    requires fact_1 { Checked l.now }
    requires fact_2 { i < length (edges_of (problem_of l.now)) }
    ensures { result ≡ crosses (problem_of l.now) i }
{
    let from = lookup::edge_from(l, i);
    let to = lookup::edge_to(l, i);
    let before = lookup::function_of(l, from);
    let after = lookup::function_of(l, to);
    before != after
}

// What a vertex's flag is after an edge to it.
fn flag_after(flag: u8, crossing: bool) -> u8
    ensures { result ≡ cond crossing 1 flag }
{
    if crossing { 1 } else { flag }
}

// Flags vertex 0, and the end of each edge from one function to another.
#[tactic(auto, using(lookup::proofs::Places::facts, lookup::proofs::Places::to_small))]
pub fn entered_flags(l: &Numbers) -> EnteredFlags
    requires { Checked l.now }
    ensures { EnteredTold (problem_of l.now) result }
{
    let mut flags = [0u8; places::MOST_VERTICES];
    flags[0] = 1;
    let count = lookup::edge_count(l);
    for i in 0..count {
        let to = lookup::edge_to(l, i);
        flags[to] = flag_after(flags[to], is_crossing(l, i));
    }
    flags
}
