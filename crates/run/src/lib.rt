// Run: a walk, judged and simulated from an empty scratchpad.
#![tactic(auto)]

ghost use Rattle.std.specs.Prelude.{◌≡◌};
ghost use Rattle.model.specs.Numbers.{problem_of};
ghost use Rattle.model.specs.Operations.{Checked};
ghost use Rattle.model.specs.Results.{run_walk, run_regions};
ghost use Rattle.model.specs.Outcomes.{run_outcome, run_says};

use model::{Numbers, Problem, Refusal, Run};
use simulation::Regions;

// The longest walk that Run takes.
const WALK_LIMIT: usize = 1_000_000;

// Run on checked numbers: the layout, the walk's length, its entries, and the run.
pub fn run_checked(
    l: &Numbers,
    layout: &[u8],
    walk: &[u32],
    held: &mut Regions,
) -> Result<Run, Refusal>
    requires { Checked l.now }
    ensures value { result ≡ run_walk (problem_of l.now) layout.now walk.now }
    ensures held_after { held.new ≡ run_regions (problem_of l.now) layout.now walk.now held.old }
{
    let count = lookup::function_count(l);
    let regions = filled::filled_in(layout, count);
    let whole: &[u8] = &regions[..count];
    layout::judge(l, layout, whole)?;
    if WALK_LIMIT < walk.len() {
        return Err(Refusal::WalkTooLong(WALK_LIMIT as u64));
    }
    walk::judge(l, walk)?;
    let run = simulation::simulate(l, whole, walk, held);
    Ok(run)
}

// **Run.** Cycles and loads, and into `held` the function held in each region, or the first refusal that applies, and `held` is left as it is.
pub fn run(
    problem: Problem,
    layout: &[u8],
    walk: &[u32],
    held: &mut Regions,
) -> Result<Run, Refusal>
    ensures value { result ≡ run_walk problem layout.now walk.now }
    ensures held_after { held.new ≡ run_regions problem layout.now walk.now held.old }
    ensures result_value { run_outcome result ≡ run_says problem layout.now walk.now }
{
    let numbers = numbers::numbers_of(problem);
    checks::judge(&numbers)?;
    run_checked(&numbers, layout, walk, held)
}
