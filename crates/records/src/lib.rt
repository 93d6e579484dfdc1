// The problem that numbers at fixed places say, as a record.
#![tactic(auto)]

ghost use Rattle.std.specs.Prelude.{◌≡◌, ◌+◌, ◌*◌, ◌≤◌};
ghost use Rattle.model.specs.Places as spot;
ghost use Rattle.model.specs.Numbers.{table, loop_at, problem_of};

use model::{Bytes, Loop, Numbers, Problem, places};
use numbers::item::Item;
use std::array;

// A list read from its first item's first place on, item by item.
fn items_of<I: Item, const N: usize>(l: &Numbers, first: usize) -> [I; N]
    requires { first + I.WIDTH * N ≤ spot.end }
    ensures { result ≡ table N (λ i. I.read l.now (first + I.WIDTH * i)) }
{
    array::from_fn(
        |i|
            requires { first + I.WIDTH * i + I.WIDTH ≤ spot.end }
        { I::read(l, first + I::WIDTH * i) },
    )
}

pub fn loops_of(l: &Numbers) -> [Loop; places::MOST_LOOPS]
    ensures { result ≡ table spot.most_loops (loop_at l.now) }
{
    items_of(l, places::HEADER)
}

// The problem that the numbers at the places say.
pub fn problem_of(l: &Numbers) -> Problem
    ensures { result ≡ problem_of l.now }
{
    Problem {
        scratchpad: Bytes(l[places::SCRATCHPAD]),
        function_count: l[places::FUNCTION_COUNT] as usize,
        functions: items_of(l, places::SIZE),
        vertex_count: l[places::VERTEX_COUNT] as usize,
        vertices: items_of(l, places::FUNCTION),
        edge_count: l[places::EDGE_COUNT] as usize,
        edges: items_of(l, places::FROM),
        loop_count: l[places::LOOP_COUNT] as usize,
        loops: loops_of(l),
    }
}
