// The loops' ranges: rule 7 of document 01, and marks of where they start and end, for the rules on edges. The loops come as a lent list.
#![tactic(auto)]

ghost use Rattle.std.specs.Prelude.{◌≡◌, ◌||◌, ◌<◌, length};
ghost use Rattle.model.specs.Places.{most_vertices, most_loops};
ghost use Rattle.model.specs.Search.{lowest_below};
ghost use Rattle.model.specs.Graph.{holds};
ghost use Rattle.lookup.specs.Plain.{range_of};
ghost use Rattle.ends.specs.Sets.{ends_between};
ghost use Rattle.ranges.specs.Ranges.{bad_at, Ranged};
ghost use Rattle.ranges.specs.Marks.{mark_loop, marks_of};

use ends::Ends;
use model::{Loop, places};

// Two words a vertex.
pub const MARK_COUNT: usize = 2 * places::MOST_VERTICES;

// Where ranges start and end: loop i is marked at its header by bit i of that word, and at its last vertex by bit i of word MOST_VERTICES + last.
pub type Marks = [u32; MARK_COUNT];

// Whether a range is bad: it holds `end`, or starts within an earlier one and ends behind it.
fn is_bad(ends: Ends, header: usize, last: usize, end: usize) -> bool
    requires { last < most_vertices }
    ensures { result ≡ (holds (range_of header last) end || ends_between ends header last) }
{
    lookup::range_holds(header, last, end) || ends::ends_between(ends, header, last)
}

// Rule 7. Two ranges are nested or disjoint, and none holds the last vertex. The lowest loop whose range holds `end` or crosses an earlier one, or
// their number.
pub fn first_bad(loops: &[Loop], end: usize) -> usize
    requires { Ranged loops.now }
    ensures { result ≡ lowest_below (length loops.now) (bad_at loops.now end) }
{
    let mut ends = ends::none();
    for (j, range) in loops.iter().enumerate() {
        if is_bad(ends, range.header, range.last, end) {
            return j;
        }
        ends = ends::with_end(ends, range.last);
    }
    loops.len()
}

fn mark_loop(marks: &mut Marks, header: usize, last: usize, i: usize)
    requires { (header < most_vertices) × ((last < most_vertices) × (i < most_loops)) }
    ensures { marks.new ≡ mark_loop marks.old header last i }
{
    marks[header] |= 1u32 << i;
    marks[places::MOST_VERTICES + last] |= 1u32 << i;
}

// The marks are lent on, loop by loop: their table is too large to pass by value.
pub fn marks_of(loops: &[Loop]) -> Marks
    requires { Ranged loops.now }
    ensures { result ≡ marks_of loops.now (length loops.now) }
{
    let mut marks = [0u32; MARK_COUNT];
    for (i, range) in loops.iter().enumerate() {
        mark_loop(&mut marks, range.header, range.last, i);
    }
    marks
}
