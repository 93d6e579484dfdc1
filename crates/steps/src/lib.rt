// The steps of a problem in a table, so that a step is looked up and not searched.
#![tactic(auto)]

ghost use Rattle.std.specs.Prelude.{◌≡◌, cond, ◌+◌, ◌*◌, ◌≤◌, get_or, ltb, leb};
ghost use Rattle.model.specs.Places.{most_vertices};
ghost use Rattle.model.specs.Numbers.{problem_of};
ghost use Rattle.model.specs.Operations.{Checked};
ghost use Rattle.steps.specs.Steps.{start, Steps};

use model::{Numbers, places};

// What stands for the latest vertex before the first entry: no vertex has that number.
pub const START: usize = places::MOST_VERTICES;

const START_ROW: usize = places::MOST_VERTICES * START;

const STEP_COUNT: usize = START_ROW + places::MOST_VERTICES;

// The steps, a row a vertex: 0 where there is no edge. A last row is for the start, which leads to vertex 0.
pub type StepTable = [u8; STEP_COUNT];

// What a step along an edge does to the visits to its end, if that is a header: 2, one more in the same stay; 1, the first of a stay. An edge stays in
// the loop of its end exactly where its end is not above its start.
fn step_along(from: usize, to: usize) -> u8
    ensures { result ≡ cond (leb to from) 2 1 }
{
    if to <= from {
        return 2;
    }
    1
}

pub fn step_table(l: &Numbers) -> StepTable
    requires { Checked l.now }
    ensures { Steps (problem_of l.now) result }
{
    let mut table = [0u8; STEP_COUNT];
    table[START_ROW] = 1;
    let count = lookup::edge_count(l);
    for i in 0..count {
        let from = lookup::edge_from(l, i);
        let to = lookup::edge_to(l, i);
        table[places::MOST_VERTICES * from + to] = step_along(from, to);
    }
    table
}

// The step from u to an entry v, 0 where v is no vertex.
pub fn step_to(steps: &StepTable, vertices: usize, u: usize, v: usize) -> u8
    requires fact_1 { vertices ≤ most_vertices }
    requires fact_2 { u ≤ start }
    ensures { result ≡ cond (ltb v vertices) (get_or steps.now (most_vertices * u + v) 0) 0 }
{
    if v < vertices {
        return steps[places::MOST_VERTICES * u + v];
    }
    0
}
