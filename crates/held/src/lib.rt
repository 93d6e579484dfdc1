// What the regions may hold as a walk arrives at each vertex, by data flow over the edges until nothing changes. A set of functions is a word, its members
// the word's bits.
#![tactic(auto)]

ghost use Rattle.std.specs.Prelude.{◌≡◌};
ghost use Rattle.model.specs.Numbers.{problem_of};
ghost use Rattle.model.specs.Operations.{Checked};
ghost use Rattle.model.specs.Results.{Member};
ghost use Rattle.flow.specs.Starts.{Starts};
ghost use Rattle.held.specs.Flow.{held_flow, HeldTable};
ghost use Rattle.held.specs.Laws.{held_laws};

use flow::{Begins, Flow};
use model::{Numbers, places};

// What may be held as a flow: what a vertex's word is after a visit (the visit's function, and what is no rival of it) goes on.
#[derive(Drop)]
struct MayHold<'a> {
    rivals: &'a [u32; places::MOST_FUNCTIONS],
}

impl Flow for MayHold<'_> {
    type Brought = u32;

    ghost flow = { λ s p. held_flow p s.rivals.now };

    ghost member = { λ add f b. Member add b };

    fn leaving(&self, l: &Numbers, u: usize, held: &[u32]) -> u32 {
        let g = lookup::function_of(l, u);
        bits::renewed(held[u], self.rivals[g], g)
    }

    fn gain(&self, _l: &Numbers, add: &u32, v: usize, held: &mut [u32]) -> bool {
        bits::gain(held, v, *add)
    }

    ghost laws = { λ s l ok. held_laws l ok s.rivals.now };
}

// For each vertex the functions that a walk may find held as it arrives there.
pub fn may_hold(
    l: &Numbers,
    begins: &Begins,
    rivals: &[u32; places::MOST_FUNCTIONS],
    held: &mut [u32; places::MOST_VERTICES],
)
    requires fact_1 { Checked l.now }
    requires fact_2 { Starts (problem_of l.now) begins.now }
    ensures { HeldTable (problem_of l.now) rivals.now held.new }
{
    *held = [0u32; places::MOST_VERTICES];
    flow::close(&MayHold { rivals }, l, begins, held);
}
