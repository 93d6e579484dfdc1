// Ways to a vertex in two phases: what a table of steps is, and the phase after a visit. The laws: numbers of steps that are at rest are exact, a walk that
// always takes the lowest vertex one nearer is the one asked for, and what the numbers tell of interference and first reach.
#![tactic(auto)]

ghost use Rattle.std.specs.Prelude.{◌≡◌};
ghost use Rattle.ways.specs.Ways.{phase_after};

use model::places;

// A vertex in each of two phases.
pub const MOST_STATES: usize = 2 * places::MOST_VERTICES;

// The number of a state from which no way leads to the goal.
pub const NO_WAY: usize = 2 * MOST_STATES;

// The number of vertex u in phase s stands at 2 u + s.
pub type Steps = [usize; MOST_STATES];

// The phase after a visit, in phase s, to a vertex of the function k: f ends phase 1, g begins it.
pub fn turn(f: usize, g: usize, k: usize, s: usize) -> usize
    ensures { result ≡ phase_after f g k s }
{
    if k == f {
        return 0;
    }
    if k == g {
        return 1;
    }
    s
}
