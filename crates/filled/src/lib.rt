// Layouts filled in: each function beyond the layout's end gets, in turn, the lowest region that no earlier function has.
#![tactic(auto)]

ghost use Rattle.std.specs.Prelude.{◌≡◌, not, ◌≤◌, length};
ghost use Rattle.model.specs.Limits.{most_regions};
ghost use Rattle.model.specs.Places.{most_functions};
ghost use Rattle.model.specs.Search.{lowest_below};
ghost use Rattle.bits.specs.Tests.{has};
ghost use Rattle.filled.specs.Filling.{WithRegion, Filling, FilledFront};

use model::{limits, places};

// A region for each function.
pub type Filled = [u8; places::MOST_FUNCTIONS];

// The regions in use, and one more. A region above the last is none, and stays out of the word.
fn with_region(used: u32, region: u8) -> u32
    ensures { WithRegion used region result }
{
    if limits::MOST_REGIONS <= region as usize {
        return used;
    }
    used | (1u32 << region)
}

// The lowest region not in use.
fn lowest_free(used: u32) -> u8
    ensures { result ≡ lowest_below most_regions (λ k. not (has used k)) }
{
    used.trailing_ones() as u8
}

// Keeps what the layout lists for the first `count` functions. The regions in use by it.
fn keep_listed(layout: &[u8], count: usize, regions: &mut Filled) -> u32
    requires fact_1 { (count ≤ length layout.now) × (count ≤ most_functions) }
    requires fact_2 { length regions.old ≡ most_functions }
    ensures { Filling layout.now count regions.new result }
{
    let mut used: u32 = 0;
    for f in 0..count {
        regions[f] = layout[f];
        used = with_region(used, layout[f]);
    }
    used
}

// The layout filled in for n functions, in front.
pub fn filled_in(layout: &[u8], n: usize) -> Filled
    requires { n ≤ most_functions }
    ensures { FilledFront layout.now n result }
{
    let listed = layout.len().min(n);
    let mut regions = [0u8; places::MOST_FUNCTIONS];
    let mut used = keep_listed(layout, listed, &mut regions);
    for f in listed..n {
        let free = lowest_free(used);
        regions[f] = free;
        used = with_region(used, free);
    }
    regions
}
