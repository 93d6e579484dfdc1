// Layouts of document 01: the refusals 11 to 13. A problem is its checked numbers.
#![tactic(auto)]

ghost use Rattle.std.specs.Prelude.{◌≡◌};
ghost use Rattle.model.specs.Numbers.{problem_of};
ghost use Rattle.model.specs.Operations.{Checked};
ghost use Rattle.model.specs.Layouts.{filled_in, need_of, judge_length, judge_regions, judge_need, judge_layout};
ghost use Rattle.regions.specs.Regions.{ListsAll};
ghost use Rattle.layout.specs.Answers.{layout_answer, layout_verdict};

use model::{Bytes, Numbers, Refusal, limits};

const LAST_REGION: usize = limits::MOST_REGIONS - 1;

// 11: longer than the functions.
fn judge_length(l: &Numbers, layout: &[u8]) -> Result<(), Refusal>
    ensures { result ≡ judge_length (problem_of l.now) layout.now }
{
    let count = lookup::function_count(l);
    if count < layout.len() {
        return Err(Refusal::LayoutTooLong(count as u64));
    }
    Ok(())
}

// 12: a region above the last.
fn judge_regions(l: &Numbers, layout: &[u8]) -> Result<(), Refusal>
    requires { ListsAll (problem_of l.now) layout.now }
    ensures { result ≡ judge_regions (problem_of l.now) layout.now }
{
    let count = lookup::function_count(l);
    for f in 0..count {
        if LAST_REGION < regions::region_of(layout, f) {
            return Err(Refusal::UnknownRegion(f as u64));
        }
    }
    Ok(())
}

// 13: more bytes needed than the scratchpad has.
fn judge_need(l: &Numbers, needed: Bytes) -> Result<(), Refusal>
    ensures { result ≡ judge_need (problem_of l.now) needed.0 }
{
    if lookup::scratchpad(l).0 < needed.0 {
        return Err(Refusal::ScratchpadTooSmall(needed.0));
    }
    Ok(())
}

// 11, 12 and 13, each on the good case of the one before: 11 of the layout as it was handed in, 12 and 13 of its regions, filled in. Answers the bytes that the
// layout needs, which the scratchpad has.
pub fn judge(l: &Numbers, layout: &[u8], regions: &[u8]) -> Result<Bytes, Refusal>
    requires fact_1 { Checked l.now }
    requires fact_2 { regions.now ≡ filled_in layout.now (problem_of l.now).function_count }
    ensures { result ≡ layout_answer (judge_layout (problem_of l.now) layout.now) (need_of (problem_of l.now) layout.now) }
{
    judge_length(l, layout)?;
    judge_regions(l, regions)?;
    let needed = regions::need(l, regions);
    judge_need(l, needed)?;
    Ok(needed)
}
