// A walk, run visit by visit from empty regions: one pass over the entries, which looks up in tables what it asks of a vertex and takes no branch that is
// as hard to foresee as the walk.
#![tactic(auto)]

ghost use Rattle.std.specs.Prelude.{◌≡◌, reverse, cond, ◌≤◌, ◌<◌, get_or, eqb};
ghost use Rattle.model.specs.Places.{most_vertices};
ghost use Rattle.model.specs.Numbers.{problem_of};
ghost use Rattle.model.specs.Operations.{Checked};
ghost use Rattle.regions.specs.Regions.{ListsAll};
ghost use Rattle.simulation.specs.Running.{Places, Costs, cost_place, Visiting, Visited, Ran, Runnable};

use model::{Cycles, Numbers, Run, limits, places};

// Two places a vertex.
const PAIR_COUNT: usize = 2 * places::MOST_VERTICES;

// Four places a vertex.
const COST_COUNT: usize = 4 * places::MOST_VERTICES;

// For each region the number of the function that it holds.
pub type Regions = [u8; limits::MOST_REGIONS];

// Stands for no function.
const NONE: u8 = 255;

// The function of each vertex and the region of that.
#[tactic(auto, using(crate::proofs::Few::few_cycles))]
fn place_table(l: &Numbers, layout: &[u8]) -> [usize; PAIR_COUNT]
    requires fact_1 { Checked l.now }
    requires fact_2 { ListsAll (problem_of l.now) layout.now }
    ensures { Places (problem_of l.now) layout.now result }
{
    let mut table = [0usize; PAIR_COUNT];
    let count = lookup::vertex_count(l);
    for v in 0..count {
        let f = lookup::function_of(l, v);
        table[2 * v] = f;
        table[2 * v + 1] = regions::region_of(layout, f);
    }
    table
}

// The cost of a visit to each vertex: by itself, with a load, with a region check, and with both.
#[tactic(auto, using(crate::proofs::Few::few_cycles))]
fn cost_table(l: &Numbers) -> [u64; COST_COUNT]
    requires { Checked l.now }
    ensures { Costs (problem_of l.now) result }
{
    let mut table = [0u64; COST_COUNT];
    let count = lookup::vertex_count(l);
    for v in 0..count {
        let own = lookup::own_cost(l, v);
        let f = lookup::function_of(l, v);
        let load = lookup::load_of(l, f);
        let check = lookup::check_of(l, f);
        let loaded = own + load;
        let checked = own + check;
        let both = checked + load;
        table[4 * v] = own.0;
        table[4 * v + 1] = loaded.0;
        table[4 * v + 2] = checked.0;
        table[4 * v + 3] = both.0;
    }
    table
}

// 0 where a visit to a function finds that function, 1 where it finds another or none: in its region, the loads of the visit; as the function of the visit
// before, its region checks.
fn one_unless_same(found: u8, function: u8) -> usize
    ensures { result ≡ cond (eqb found function) 0 1 }
{
    usize::from(found != function)
}

// The cost of a visit with that many region checks and loads. They tell the place, so that no branch asks for them.
fn cost_of_visit(costs: &[u64; COST_COUNT], v: usize, checks: usize, loads: usize) -> Cycles
    requires { (v < most_vertices) × ((checks ≤ 1) × (loads ≤ 1)) }
    ensures { result.0 ≡ get_or costs.now (cost_place v checks loads) 0 }
{
    Cycles(costs[4 * v + 2 * checks + loads])
}

// One visit of a run: its cost, the function held in its region afterwards, and the latest function.
fn visit(
    places: &[usize; PAIR_COUNT],
    costs: &[u64; COST_COUNT],
    held: &mut Regions,
    latest: &mut u8,
    run: Run,
    v: usize,
) -> Run
    requires { Visiting places.now costs.now run v }
    ensures { Visited places.now costs.now held.old held.new latest.old latest.new run result v }
{
    let function = places[2 * v] as u8;
    let region = places[2 * v + 1];
    let checks = one_unless_same(*latest, function);
    let loads = one_unless_same(held[region], function);
    *latest = function;
    held[region] = function;
    let cycles = run.cycles + cost_of_visit(costs, v, checks, loads);
    Run {
        cycles: cycles,
        loads: run.loads + loads as u64,
    }
}

// Runs a judged walk from empty regions.
pub fn simulate(l: &Numbers, layout: &[u8], walk: &[u32], held: &mut Regions) -> Run
    requires { Runnable l.now layout.now walk.now }
    ensures { Ran (problem_of l.now) layout.now (reverse walk.now) held.new result }
{
    *held = [NONE; limits::MOST_REGIONS];
    let places = place_table(l, layout);
    let costs = cost_table(l);
    let mut run = Run {
        cycles: Cycles(0),
        loads: 0,
    };
    let mut latest: u8 = NONE;
    for entry in walk {
        run = visit(&places, &costs, held, &mut latest, run, *entry as usize);
    }
    run
}
