// The check of an operation on one vertex: 21, the vertex is unknown. Its number may be any.
#![tactic(auto)]

ghost use Rattle.std.specs.Prelude.{◌≡◌};
ghost use Rattle.model.specs.Numbers.{problem_of};
ghost use Rattle.model.specs.Verdicts.{judge_vertex};

use model::{Numbers, Refusal};

pub fn judge_vertex(l: &Numbers, vertex: u64) -> Result<(), Refusal>
    ensures { result ≡ judge_vertex (problem_of l.now) vertex }
{
    let count = lookup::vertex_count(l) as u64;
    if vertex < count {
        return Ok(());
    }
    Err(Refusal::UnknownVertex(vertex))
}
