// First reach, by data flow over the edges until nothing changes: with which functions not yet visited a walk may arrive at each vertex.
#![tactic(auto)]

ghost use Rattle.std.specs.Prelude.{◌≡◌};
ghost use Rattle.model.specs.Numbers.{problem_of};
ghost use Rattle.model.specs.Operations.{Checked};
ghost use Rattle.model.specs.Results.{Member};
ghost use Rattle.flow.specs.Starts.{Starts};
ghost use Rattle.reach.specs.Fresh.{fresh_flow, FreshTable};
ghost use Rattle.reach.specs.Laws.{fresh_laws};

use flow::{Begins, Flow};
use model::{Numbers, places};

// First reach as a flow: what a vertex's word has but its function goes on.
struct FirstReach;

impl Flow for FirstReach {
    type Brought = u32;

    ghost flow = { λ s p. fresh_flow p };

    ghost member = { λ add f b. Member add b };

    fn leaving(&self, l: &Numbers, u: usize, fresh: &[u32]) -> u32 {
        bits::without(fresh[u], lookup::function_of(l, u))
    }

    fn gain(&self, _l: &Numbers, add: &u32, v: usize, fresh: &mut [u32]) -> bool {
        bits::gain(fresh, v, *add)
    }

    ghost laws = { λ s l ok. fresh_laws (problem_of l) };
}

// First reach: for each vertex the functions f such that some walk arrives there with no earlier vertex of f.
pub fn first_reach(l: &Numbers, begins: &Begins, fresh: &mut [u32; places::MOST_VERTICES])
    requires fact_1 { Checked l.now }
    requires fact_2 { Starts (problem_of l.now) begins.now }
    ensures { FreshTable (problem_of l.now) fresh.new }
{
    *fresh = [0u32; places::MOST_VERTICES];
    fresh[0] = bits::below(lookup::function_count(l));
    flow::close(&FirstReach, l, begins, fresh);
}
