// A walk, judged entry by entry (15 and 16): one pass over the entries, which looks up in tables what it asks of a vertex and takes no branch that is as
// hard to foresee as the walk.
#![tactic(auto)]

ghost use Rattle.std.specs.Prelude.{◌≡◌, []};
ghost use Rattle.model.specs.Numbers.{problem_of};
ghost use Rattle.model.specs.Operations.{Checked};
ghost use Rattle.model.specs.Verdicts.{judge_walk};
ghost use Rattle.walk.specs.Judging.{Bounds, Arriving, Arrived};

use model::{Numbers, Refusal, limits, places};

// A number a vertex.
type ByVertex = [u64; places::MOST_VERTICES];

// The bound of the loop whose header a vertex is. For any other vertex the greatest bound stands in.
fn bound_table(l: &Numbers) -> ByVertex
    requires { Checked l.now }
    ensures { Bounds (problem_of l.now) result }
{
    let mut table = [limits::MOST_VISITS as u64; places::MOST_VERTICES];
    let count = lookup::loop_count(l);
    for i in 0..count {
        let header = lookup::loop_header(l, i);
        table[header] = lookup::loop_bound(l, i);
    }
    table
}

// Counts an arrival at v, and says whether v is no header beyond its bound. Every vertex is counted as if it were a header: no other has a step of 2,
// so that its count stays at 1.
fn count_arrival(bounds: &ByVertex, counts: &mut ByVertex, step: u8, v: usize) -> bool
    requires { Arriving counts.old step v }
    ensures { Arrived bounds.now counts.old counts.new step v result }
{
    let visits = counts[v] * (step - 1) as u64 + 1;
    if bounds[v] < visits {
        return false;
    }
    counts[v] = visits;
    true
}

// Judges a walk: 15 and 16 at the first bad position, 15 first at one position.
pub fn judge(l: &Numbers, walk: &[u32]) -> Result<(), Refusal>
    requires { Checked l.now }
    ensures { result ≡ judge_walk (problem_of l.now) [] 0 walk.now }
{
    let steps = steps::step_table(l);
    let bounds = bound_table(l);
    let vertices = lookup::vertex_count(l);
    let mut counts = [0u64; places::MOST_VERTICES];
    let mut u: usize = steps::START;
    for (i, entry) in walk.iter().enumerate() {
        let v = *entry as usize;
        let step = steps::step_to(&steps, vertices, u, v);
        if step == 0 {
            return Err(Refusal::WrongStep(i as u64));
        }
        if !count_arrival(&bounds, &mut counts, step, v) {
            return Err(Refusal::BeyondBound(i as u64));
        }
        u = v;
    }
    if u + 1 == vertices {
        return Ok(());
    }
    Err(Refusal::WrongStep(walk.len() as u64))
}
