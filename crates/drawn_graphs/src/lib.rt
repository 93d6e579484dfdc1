// The head and the graphs of a drawing: each function's graph as document 01 checks a problem, with the function as place.
#![tactic(auto)]

ghost use Rattle.std.specs.Prelude.{◌≡◌, ◌+◌, ◌*◌, ◌≤◌, ◌<◌, min, replicate};
ghost use Rattle.model.specs.Places as spot;
ghost use Rattle.model.specs.Numbers.{table};
ghost use Rattle.model.specs.Verdicts.{judge_problem};
ghost use Rattle.model.specs.Drawings.{drawn_functions, graph_of};
ghost use Rattle.model.specs.Inlined.{placed_in, judge_head, judge_graphs};
ghost use Rattle.numbers.specs.Numbered.{Numbered, Stored};
ghost use Rattle.drawn_graphs.specs.Used.{used_graph};

use items::Drawn;
use model::{Drawing, Edge, Function, Loop, Numbers, Refusal, Vertex, limits, places};
use numbers::item::Item;

mod items;

// The used items of a list of f's graph stored from its first item's first place on, item by item. A drawn count may be any number.
fn put_items<I: Drawn>(l: &mut Numbers, first: usize, d: &Drawing, f: usize, count: usize)
    requires function { f < spot.most_functions }
    requires fits { first + I.WIDTH * I.MOST ≤ spot.end }
    ensures { let used = min count I.MOST in Stored I.numbers used first (table used (I.of_graph d.now f)) l.old l.new }
{
    for i in 0..count.min(I::MOST) {
        I::of_graph(d, f, i).put(l, first + I::WIDTH * i);
    }
}

// The numbers of the graph drawn for f, as a problem's, in places that are all zero. Spare places are not copied.
fn fill_graph(d: &Drawing, f: usize, l: &mut Numbers)
    requires fact_1 { f < spot.most_functions }
    requires fact_2 { l.old ≡ replicate spot.end 0 }
    ensures { Numbered (used_graph d.now f) l.new }
{
    l[places::SCRATCHPAD] = drawings::scratchpad(d) as u64;
    let functions = drawings::function_count(d);
    l[places::FUNCTION_COUNT] = functions as u64;
    put_items::<Function>(l, places::SIZE, d, f, functions);
    let vertices = drawings::vertex_count(d, f);
    l[places::VERTEX_COUNT] = vertices as u64;
    put_items::<Vertex>(l, places::FUNCTION, d, f, vertices);
    let edges = drawings::edge_count(d, f);
    l[places::EDGE_COUNT] = edges as u64;
    put_items::<Edge>(l, places::FROM, d, f, edges);
    let loops = drawings::loop_count(d, f);
    l[places::LOOP_COUNT] = loops as u64;
    put_items::<Loop>(l, places::HEADER, d, f, loops);
    numbers::put_edition(l);
}

// 3 at 0: a bad scratchpad size or function count.
pub fn judge_head(d: &Drawing) -> Result<(), Refusal>
    ensures { result ≡ judge_head d.now }
{
    if !(1..=limits::MOST_BYTES).contains(&drawings::scratchpad(d)) {
        return Err(Refusal::OutOfRange(0));
    }
    if !(1..=places::MOST_FUNCTIONS).contains(&drawings::function_count(d)) {
        return Err(Refusal::OutOfRange(0));
    }
    Ok(())
}

// What document 01's checks say of f's graph, with f as place.
fn judge_graph(d: &Drawing, f: usize) -> Result<(), Refusal>
    requires { f < spot.most_functions }
    ensures { result ≡ placed_in f (judge_problem (graph_of d.now f)) }
{
    let mut numbers = [0u64; places::END];
    fill_graph(d, f, &mut numbers);
    checks::judge(&numbers).map_err(|refusal| refusal.placed_at(f as u64))
}

// Then the lowest function that breaks 3, 4 or 6 to 9.
pub fn judge_graphs(d: &Drawing) -> Result<(), Refusal>
    requires { drawn_functions d.now ≤ spot.most_functions }
    ensures { result ≡ judge_graphs d.now }
{
    let count = drawings::function_count(d);
    for f in 0..count {
        judge_graph(d, f)?;
    }
    Ok(())
}
