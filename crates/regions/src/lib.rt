// The regions of a layout that leaves no function off: the region of each function, and the bytes that the layout needs. A problem is its checked numbers.
#![tactic(auto)]

ghost use Rattle.std.specs.Prelude.{◌≡◌, ◌<◌, length};
ghost use Rattle.model.specs.Limits.{most_regions};
ghost use Rattle.model.specs.Numbers.{problem_of};
ghost use Rattle.model.specs.Operations.{Checked};
ghost use Rattle.model.specs.Layouts.{region_of, need_of};
ghost use Rattle.regions.specs.Regions.{ListsAll};
ghost use Rattle.regions.specs.Sizes.{Enlarged, LargestSizes};

use model::{Bytes, Numbers, limits};

// A size a region.
type Sizes = [u64; limits::MOST_REGIONS];

pub fn region_of(layout: &[u8], f: usize) -> usize
    requires { f < length layout.now }
    ensures { result ≡ region_of layout.now f }
{
    layout[f] as usize
}

// A region's largest size, with one size more.
fn enlarge(sizes: &mut Sizes, region: usize, size: Bytes)
    requires { length sizes.old ≡ most_regions }
    ensures { Enlarged sizes.old region size.0 sizes.new }
{
    if region < limits::MOST_REGIONS {
        sizes[region] = Bytes(sizes[region]).max(size).0;
    }
}

// The size of the largest function in each region.
fn largest_sizes(l: &Numbers, layout: &[u8], sizes: &mut Sizes)
    requires fact_1 { Checked l.now }
    requires fact_2 { ListsAll (problem_of l.now) layout.now }
    ensures { LargestSizes (problem_of l.now) layout.now sizes.new }
{
    *sizes = [0u64; limits::MOST_REGIONS];
    let count = lookup::function_count(l);
    for f in 0..count {
        enlarge(sizes, region_of(layout, f), lookup::size_of(l, f));
    }
}

// The bytes that a layout needs: for each region, the size of its largest function, all added.
pub fn need(l: &Numbers, layout: &[u8]) -> Bytes
    requires fact_1 { Checked l.now }
    requires fact_2 { ListsAll (problem_of l.now) layout.now }
    ensures { result.0 ≡ need_of (problem_of l.now) layout.now }
{
    let mut sizes = [0u64; limits::MOST_REGIONS];
    largest_sizes(l, layout, &mut sizes);
    let mut needed = Bytes(0);
    for size in sizes {
        needed = needed + Bytes(size);
    }
    needed
}
