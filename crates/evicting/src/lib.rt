// Which function evicts: the lowest of a region that comes between two visits to another. A problem is its checked numbers.
#![tactic(auto)]

ghost use Rattle.std.specs.Prelude.{◌≡◌, ◌<◌, min};
ghost use Rattle.model.specs.Numbers.{problem_of};
ghost use Rattle.evicting.specs.Evicting.{Sharing, Named, Lowest};

use model::{Numbers, places};
use ways::{NO_WAY, Steps};

// The function that no vertex has.
pub const NO_FUNCTION: usize = places::MOST_FUNCTIONS;

// The function of u, if it is another one of the region of f and a way leads on from u; else no function.
fn named(l: &Numbers, regions: &[u8], f: usize, steps: &Steps, u: usize) -> usize
    requires fact_1 { Sharing l.now regions.now f }
    requires fact_2 { u < (problem_of l.now).vertex_count }
    ensures { Named (problem_of l.now) regions.now f steps.now u result }
{
    if NO_WAY <= steps[2 * u + 1] {
        return NO_FUNCTION;
    }
    let g = lookup::function_of(l, u);
    if g == f {
        return NO_FUNCTION;
    }
    if regions::region_of(regions, g) == regions::region_of(regions, f) {
        return g;
    }
    NO_FUNCTION
}

// The lowest function that a vertex names.
pub fn lowest(l: &Numbers, regions: &[u8], f: usize, steps: &Steps) -> usize
    requires { Sharing l.now regions.now f }
    ensures { Lowest (problem_of l.now) regions.now f steps.now (problem_of l.now).vertex_count result }
{
    let count = lookup::vertex_count(l);
    let mut least = NO_FUNCTION;
    for u in 0..count {
        least = least.min(named(l, regions, f, steps, u));
    }
    least
}
