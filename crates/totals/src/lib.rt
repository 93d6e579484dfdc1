// Bound's answer from what pricing finds: the smaller of the greatest visit charges with the first loads and the greatest second total, held to the limit.
#![tactic(auto)]

ghost use Rattle.std.specs.Prelude.{◌≡◌, ◌+◌, ◌≤◌, min};
ghost use Rattle.totals.specs.Totals.{totalled};

use model::{Bound, Bytes, Cycles, Refusal, limits};

pub fn answer_of(
    need: Bytes,
    contested: usize,
    first: Cycles,
    greatest: Cycles,
    second: Cycles,
) -> Result<Bound, Refusal>
    requires fact_1 { greatest.0 + first.0 ≤ 18446744073709551615 }
    requires fact_2 { greatest.0 ≤ second.0 }
    ensures { result ≡ totalled need contested first greatest second }
{
    let total = greatest + first;
    let bound = total.min(second);
    if limits::MOST_BOUND < bound.0 {
        return Err(Refusal::BoundTooLarge(0));
    }
    let above = bound.0 - greatest.0;
    Ok(Bound {
        need: need,
        contested: contested,
        first: Cycles(above),
        bound: bound,
    })
}
