// The checks of a drawing before its counts: its head, its graphs, its last vertices and its calls.
#![tactic(auto)]

ghost use Rattle.std.specs.Prelude.{◌≡◌};
ghost use Rattle.model.specs.Graph.{and_then};
ghost use Rattle.model.specs.Inlined.{judge_head, judge_graphs, judge_last, judge_calls};

use model::{Drawing, Refusal};

// 3, 4, 6 to 9, 20 and 18, in this order, each stage on the good case of the one before.
pub fn judge_drawn(d: &Drawing) -> Result<(), Refusal>
    ensures { result ≡ and_then (judge_head d.now) (and_then (judge_graphs d.now) (and_then (judge_last d.now) (judge_calls d.now))) }
{
    drawn_graphs::judge_head(d)?;
    drawn_graphs::judge_graphs(d)?;
    drawn_calls::judge_last(d)?;
    drawn_calls::judge_calls(d)
}
