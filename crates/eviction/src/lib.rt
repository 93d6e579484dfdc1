// Eviction: why a vertex pays its load, and the shortest walk that shows it.
#![tactic(auto)]

ghost use Rattle.model.specs.Numbers.{problem_of};
ghost use Rattle.model.specs.Operations.{Checked};
ghost use Rattle.model.specs.Results.{EvictionSays, EvictionFits};
ghost use Rattle.model.specs.Outcomes.{eviction_outcome, Evicted};
ghost use Rattle.following.specs.Following.{Leading};
ghost use Rattle.eviction.specs.Showing.{Showed, Explainable, Explained};

use evicting::NO_FUNCTION;
use flow::Begins;
use model::{Eviction, Numbers, Problem, Reason, Refusal};
use ways::{NO_WAY, Steps};

// The walk by these numbers to the front of the buffer, with the reason that it shows; or 10, and the buffer is left as it is.
fn show(
    l: &Numbers,
    begins: &Begins,
    f: usize,
    g: usize,
    steps: &Steps,
    phase: usize,
    reason: Reason,
    walk: &mut [u32],
) -> Result<Eviction, Refusal>
    requires { Leading l.now begins.now f g steps.now phase }
    ensures { Showed (problem_of l.now) f g steps.now phase reason walk.old walk.new result }
{
    let count = steps[phase] + 1;
    if walk.len() < count {
        return Err(Refusal::BufferTooShort(count as u64));
    }
    following::follow(l, begins, f, g, steps, phase, walk);
    Ok(Eviction {
        reason: reason,
        count: count,
    })
}

// The reason for v under regions that list every function. The steps to v past no vertex of its own function tell which functions come between, and whether
// a way leads there from vertex 0. Where a function is named, the shortest way by it takes a search of its own.
fn explain(l: &Numbers, regions: &[u8], v: usize, walk: &mut [u32]) -> Result<Eviction, Refusal>
    requires { Explainable l.now regions.now v }
    ensures { Explained (problem_of l.now) regions.now v walk.old walk.new result }
{
    let f = lookup::function_of(l, v);
    let edges = chains::edge_chains(l);
    let begins = flow::starts(l);
    let free = distances::distances(l, &edges, f, NO_FUNCTION, v);
    let g = evicting::lowest(l, regions, f, &free);
    if g < NO_FUNCTION {
        let steps = distances::distances(l, &edges, f, g, v);
        return show(l, &begins, f, g, &steps, 0, Reason::EveryVisit(g), walk);
    }
    if free[1] < NO_WAY {
        return show(
            l,
            &begins,
            f,
            NO_FUNCTION,
            &free,
            1,
            Reason::FirstLoad,
            walk,
        );
    }
    Ok(Eviction {
        reason: Reason::Never,
        count: 0,
    })
}

// Eviction on checked numbers: the layout, the vertex, and the reason.
pub fn eviction_checked(
    l: &Numbers,
    layout: &[u8],
    vertex: u64,
    walk: &mut [u32],
) -> Result<Eviction, Refusal>
    requires { Checked l.now }
    ensures eviction_says { EvictionSays (problem_of l.now) layout.now vertex walk.old walk.new result }
    ensures eviction_fits { EvictionFits (problem_of l.now) layout.now vertex walk.old result }
{
    let count = lookup::function_count(l);
    let regions = filled::filled_in(layout, count);
    let whole: &[u8] = &regions[..count];
    layout::judge(l, layout, whole)?;
    vertex_checks::judge_vertex(l, vertex)?;
    explain(l, whole, vertex as usize, walk)
}

// **Eviction.** Why the vertex pays its load, and the shortest walk that shows it at the front of the buffer, with its entries; or the first refusal that
// applies, and the buffer is left as it is.
pub fn eviction(
    problem: Problem,
    layout: &[u8],
    vertex: u64,
    walk: &mut [u32],
) -> Result<Eviction, Refusal>
    ensures eviction_says { EvictionSays problem layout.now vertex walk.old walk.new result }
    ensures eviction_fits { EvictionFits problem layout.now vertex walk.old result }
    ensures evicted { Evicted problem layout.now vertex walk.old walk.new (eviction_outcome result) }
{
    let numbers = numbers::numbers_of(problem);
    checks::judge(&numbers)?;
    eviction_checked(&numbers, layout, vertex, walk)
}
