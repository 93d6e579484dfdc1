// How many steps lead from each vertex, in each phase, to a goal: a search back from the goal along the edges, first come first served. A problem is
// its checked numbers.
#![tactic(auto)]

ghost use Rattle.std.specs.Prelude.{◌≤◌, ◌<◌, get_or};
ghost use Rattle.model.specs.Numbers.{problem_of};
ghost use Rattle.model.specs.Operations.{Checked};
ghost use Rattle.model.specs.Places.{most_vertices};
ghost use Rattle.lookup.specs.Lists.{edges_in};
ghost use Rattle.greatest.specs.Numbers.{ends};
ghost use Rattle.chains.specs.Chains.{edge_count, EdgeChains};
ghost use Rattle.ways.specs.Ways.{most_states, no_way, Distances};
ghost use Rattle.distances.specs.Searching.{Entered, Arriving, StartPassed, AllPassed};

use chains::EdgeTable;
use model::{Numbers, places};
use ways::{MOST_STATES, NO_WAY, Steps};

// The states that have a number, in the order in which they got it.
type Queue = [usize; MOST_STATES];

// A state that leads on as asked and has no number gets this one, and a place at the queue's end. Where the queue ends then.
fn enter(
    leads: bool,
    state: usize,
    number: usize,
    steps: &mut Steps,
    queue: &mut Queue,
    end: usize,
) -> usize
    requires fact_1 { state < most_states }
    requires fact_2 { (no_way ≤ get_or steps.old state 0 → end < most_states) }
    ensures { Entered leads state number steps.old queue.old end steps.new queue.new result }
{
    if !leads {
        return end;
    }
    if steps[state] < NO_WAY {
        return end;
    }
    steps[state] = number;
    queue[end] = state;
    end + 1
}

// The start of edge i, in each phase from which its visit leads to phase t.
fn enter_start(
    l: &Numbers,
    f: usize,
    g: usize,
    i: usize,
    t: usize,
    number: usize,
    steps: &mut Steps,
    queue: &mut Queue,
    end: usize,
) -> usize
    requires fact_1 { i < edge_count l.now }
    requires fact_2 { Arriving l.now f g (ends (edges_in l.now) i) t number steps.old queue.old end }
    ensures { StartPassed l.now f g i t number steps.old queue.old end steps.new queue.new result }
{
    let u = lookup::edge_from(l, i);
    let k = lookup::function_of(l, u);
    let last = enter(
        ways::turn(f, g, k, 0) == t,
        2 * u,
        number,
        steps,
        queue,
        end,
    );
    enter(
        ways::turn(f, g, k, 1) == t,
        2 * u + 1,
        number,
        steps,
        queue,
        last,
    )
}

// The starts of all edges to w, met in phase t.
#[tactic(auto, using(chains::proofs::Checks::checked_bounds))]
fn enter_before(
    l: &Numbers,
    edges: &EdgeTable,
    f: usize,
    g: usize,
    w: usize,
    t: usize,
    number: usize,
    steps: &mut Steps,
    queue: &mut Queue,
    end: usize,
) -> usize
    requires fact_1 { EdgeChains l.now edges.now }
    requires fact_2 { w < most_vertices }
    requires fact_3 { Arriving l.now f g w t number steps.old queue.old end }
    ensures { AllPassed (problem_of l.now) f g w t number steps.old queue.old end steps.new queue.new result }
{
    let mut last = end;
    let mut next = edges[w];
    while 0 < next {
        let i = next - 1;
        last = enter_start(l, f, g, i, t, number, steps, queue, last);
        next = edges[places::MOST_VERTICES + i];
    }
    last
}

// The steps from each vertex in each phase to v in phase 1.
#[tactic(auto, using(chains::proofs::Checks::checked_bounds))]
pub fn distances(l: &Numbers, edges: &EdgeTable, f: usize, g: usize, v: usize) -> Steps
    requires fact_1 { Checked l.now }
    requires fact_2 { EdgeChains l.now edges.now }
    requires fact_3 { v < (problem_of l.now).vertex_count }
    ensures { Distances (problem_of l.now) f g v result }
{
    let mut steps = [NO_WAY; MOST_STATES];
    let mut queue = [0usize; MOST_STATES];
    steps[2 * v + 1] = 0;
    queue[0] = 2 * v + 1;
    let mut end: usize = 1;
    let mut first: usize = 0;
    while first < end {
        let state = queue[first];
        let number = steps[state] + 1;
        end = enter_before(
            l,
            edges,
            f,
            g,
            state / 2,
            state % 2,
            number,
            &mut steps,
            &mut queue,
            end,
        );
        first += 1;
    }
    steps
}
