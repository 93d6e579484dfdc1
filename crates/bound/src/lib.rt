// Bound: the smaller of two totals, the greatest visit charges over all lawful walks plus the first loads, and the greatest second total.
#![tactic(auto)]

ghost use Rattle.std.specs.Prelude.{◌≡◌};
ghost use Rattle.model.specs.Numbers.{problem_of};
ghost use Rattle.model.specs.Layouts.{need_of};
ghost use Rattle.model.specs.Operations.{Checked};
ghost use Rattle.model.specs.Results.{BoundSays};
ghost use Rattle.model.specs.Outcomes.{bound_outcome, IsBounded};
ghost use Rattle.regions.specs.Regions.{KnownRegions};
ghost use Rattle.bound.specs.Priced.{Priced};

use model::{Bound, Bytes, Numbers, Problem, Refusal, places};

// What a layout that fits costs: the part of Bound after the checks.
pub fn price(l: &Numbers, layout: &[u8], need: Bytes) -> Result<Bound, Refusal>
    requires fact_1 { Checked l.now }
    requires fact_2 { need.0 ≡ need_of (problem_of l.now) layout.now }
    requires fact_3 { KnownRegions (problem_of l.now) layout.now }
    ensures { Priced (problem_of l.now) layout.now result }
{
    let mut rivals = [0u32; places::MOST_FUNCTIONS];
    rivals::fill_rivals(l, layout, &mut rivals);
    let begins = flow::starts(l);
    let mut held = [0u32; places::MOST_VERTICES];
    held::may_hold(l, &begins, &rivals, &mut held);
    let mut fresh = [0u32; places::MOST_VERTICES];
    reach::first_reach(l, &begins, &mut fresh);
    let mut flags = [0u8; places::MOST_VERTICES];
    let contested = charges::mark_contested(l, &rivals, &held, &mut flags);
    let entered = entered::entered_flags(l);
    let early = early::early_words(l, &flags, &fresh);
    let cold = early::functions_in(&early, 0, lookup::vertex_count(l));
    let first = early::first_loads(l, cold);
    let edges = chains::edge_chains(l);
    let loops = chains::loop_chains(l);
    let greatest = sums::greatest_charges(l, &edges, &loops, &entered, &flags);
    let second = sums::greatest_second(l, &edges, &loops, &entered, &flags, &early);
    totals::answer_of(need, contested, first, greatest, second)
}

// Bound on checked numbers: the layout, and its price.
pub fn bound_checked(l: &Numbers, layout: &[u8]) -> Result<Bound, Refusal>
    requires { Checked l.now }
    ensures { BoundSays (problem_of l.now) layout.now result }
{
    let count = lookup::function_count(l);
    let regions = filled::filled_in(layout, count);
    let whole: &[u8] = &regions[..count];
    let need = layout::judge(l, layout, whole)?;
    price(l, whole, need)
}

// **Bound.** Bytes needed, contested vertices, the bound and what it has above the greatest visit charges, or the first refusal that applies.
pub fn bound(problem: Problem, layout: &[u8]) -> Result<Bound, Refusal>
    ensures bound_says { BoundSays problem layout.now result }
    ensures bounded { IsBounded problem layout.now (bound_outcome result) }
{
    let numbers = numbers::numbers_of(problem);
    checks::judge(&numbers)?;
    bound_checked(&numbers, layout)
}
