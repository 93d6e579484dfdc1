// The walk that always takes the lowest vertex one step nearer to the goal, written to a lent buffer. A problem is its checked numbers.
#![tactic(auto)]

ghost use Rattle.std.specs.Prelude.{length};
ghost use Rattle.model.specs.Numbers.{problem_of};
ghost use Rattle.following.specs.Following.{Seekable, Lowest, Followable, Followed};

use flow::Begins;
use model::Numbers;
use ways::Steps;

// The lowest vertex behind u that has the number k in phase t. There is one.
fn next_vertex(l: &Numbers, begins: &Begins, steps: &Steps, u: usize, t: usize, k: usize) -> usize
    requires { Seekable l.now begins.now steps.now u t k }
    ensures { Lowest (problem_of l.now) steps.now u t k result }
{
    let mut i = begins[u];
    loop {
        let w = lookup::edge_to(l, i);
        if steps[2 * w + t] == k {
            return w;
        }
        i += 1;
    }
}

// The walk from vertex 0, begun in this phase, at the front of the buffer.
pub fn follow(
    l: &Numbers,
    begins: &Begins,
    f: usize,
    g: usize,
    steps: &Steps,
    phase: usize,
    walk: &mut [u32],
)
    requires { Followable l.now begins.now f g steps.now phase (length walk.old) }
    ensures { Followed (problem_of l.now) f g steps.now phase walk.old walk.new }
{
    let mut u: usize = 0;
    let mut s = phase;
    let far = steps[phase];
    walk[0] = 0;
    for n in 0..far {
        let t = ways::turn(f, g, lookup::function_of(l, u), s);
        u = next_vertex(l, begins, steps, u, t, far - n - 1);
        s = t;
        walk[n + 1] = u as u32;
    }
}
