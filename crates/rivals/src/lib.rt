// Who shares a region: for each function the others of its region, as a word whose bits are their numbers.
#![tactic(auto)]

ghost use Rattle.std.specs.Prelude.{◌≡◌, length};
ghost use Rattle.model.specs.Numbers.{problem_of};
ghost use Rattle.model.specs.Operations.{Checked};
ghost use Rattle.regions.specs.Regions.{KnownRegions};
ghost use Rattle.rivals.specs.Rivals.{Members, RivalTable};
ghost use Rattle.model.specs.Places as places;

use model::{Numbers, limits, places};

// The functions of each region.
#[tactic(auto, using(lookup::proofs::Places::facts, lookup::proofs::Places::few_functions))]
fn members_of(l: &Numbers, layout: &[u8], members: &mut [u32; limits::MOST_REGIONS])
    requires fact_1 { Checked l.now }
    requires fact_2 { KnownRegions (problem_of l.now) layout.now }
    ensures { Members layout.now (problem_of l.now).function_count members.new }
{
    *members = [0u32; limits::MOST_REGIONS];
    let count = lookup::function_count(l);
    for f in 0..count {
        let region = regions::region_of(layout, f);
        members[region] |= 1u32 << f;
    }
}

// For each function the others of its region.
#[tactic(auto, using(lookup::proofs::Places::facts, lookup::proofs::Places::few_functions))]
pub fn fill_rivals(l: &Numbers, layout: &[u8], rivals: &mut [u32; places::MOST_FUNCTIONS])
    requires fact_1 { Checked l.now }
    requires fact_2 { KnownRegions (problem_of l.now) layout.now }
    requires fact_3 { length rivals.old ≡ places.most_functions }
    ensures { RivalTable (problem_of l.now) layout.now rivals.new }
{
    let mut members = [0u32; limits::MOST_REGIONS];
    members_of(l, layout, &mut members);
    let count = lookup::function_count(l);
    for f in 0..count {
        let region = regions::region_of(layout, f);
        rivals[f] = bits::without(members[region], f);
    }
}
