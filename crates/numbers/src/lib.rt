// A problem's numbers at fixed places in file order, from its record and from its fields.
#![tactic(auto)]

ghost use Rattle.std.specs.Prelude.{◌≡◌, ◌+◌, ◌*◌, ◌≤◌, ◌∷◌, set};
ghost use Rattle.model.specs.Places as spot;
ghost use Rattle.model.specs.Graph.{functions_of};
ghost use Rattle.model.specs.Numbers.{some_check, edition_of, problem_of};
ghost use Rattle.numbers.specs.Numbered.{Numbered, Stored};

use item::Item;
use model::{Numbers, Problem, limits, places};

pub mod item;

// A list stored from its first item's first place on, item by item.
fn put_items<I: Item, const N: usize>(l: &mut Numbers, first: usize, items: &[I; N])
    requires { first + I.WIDTH * N ≤ spot.end }
    ensures { Stored I.numbers N first items.now l.old l.new }
{
    for (i, item) in items.iter().enumerate() {
        item.put(l, first + I::WIDTH * i);
    }
}

// Whether a function below the count, however large that is, has a check cost above 0.
fn some_check(l: &Numbers) -> bool
    ensures { result ≡ some_check (functions_of (problem_of l.now)) }
{
    let taken = (l[places::FUNCTION_COUNT] as usize).min(places::MOST_FUNCTIONS);
    (0..taken).any(|i| 0 < l[places::CHECK + places::FUNCTION_WIDTH * i])
}

// The edition that is written of a problem's numbers, whichever they have.
fn edition_of(l: &Numbers) -> u64
    ensures { result ≡ edition_of (problem_of l.now) }
{
    if some_check(l) {
        return limits::SECOND_EDITION as u64;
    }
    limits::FIRST_EDITION as u64
}

// Puts the edition that is written of the other numbers.
pub fn put_edition(l: &mut Numbers)
    ensures { l.new ≡ set l.old spot.edition (edition_of (problem_of l.old)) }
{
    let edition = edition_of(l);
    l[places::EDITION] = edition;
}

// The problem's numbers at their places.
pub fn numbers_of(p: Problem) -> Numbers
    ensures { Numbered p result }
{
    let mut l = [0u64; places::END];
    l[places::SCRATCHPAD] = p.scratchpad.0;
    l[places::FUNCTION_COUNT] = p.function_count as u64;
    put_items(&mut l, places::SIZE, &p.functions);
    l[places::VERTEX_COUNT] = p.vertex_count as u64;
    put_items(&mut l, places::FUNCTION, &p.vertices);
    l[places::EDGE_COUNT] = p.edge_count as u64;
    put_items(&mut l, places::FROM, &p.edges);
    l[places::LOOP_COUNT] = p.loop_count as u64;
    put_items(&mut l, places::HEADER, &p.loops);
    put_edition(&mut l);
    l
}

// A problem's numbers from its fields. The edition, which is no part of the problem, stands as 1.
pub fn with_edition(fields: [u32; places::FIELD_COUNT]) -> Numbers
    ensures { result ≡ 1 ∷ fields }
{
    let mut numbers = [0u64; places::END];
    numbers[places::EDITION] = 1;
    for (i, field) in fields.iter().enumerate() {
        numbers[i + places::SCRATCHPAD] = *field as u64;
    }
    numbers
}
