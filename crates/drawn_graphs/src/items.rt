// The items of a function's graph, as a drawing has them.
ghost use Rattle.std.specs.Prelude.{◌≡◌, ℕ, ◌<◌, List};
ghost use Rattle.model.specs.Places as spot;
ghost use Rattle.model.specs.Drawings.{callee_of, or_first, drawn_function, drawn_vertex, drawn_edge, drawn_loop};

use model::{Bytes, Cycles, Drawing, Edge, Function, Loop, Vertex, drawn, places};
use numbers::item::Item;

pub trait Drawn: Item {
    // How many a list has room for.
    const MOST: usize;

    ghost MOST: { ℕ };

    // Item i of function f's list.
    ghost of_graph: { List ℕ → ℕ → ℕ → Self };

    fn of_graph(d: &Drawing, f: usize, i: usize) -> Self
        requires function { f < spot.most_functions }
        requires item { i < MOST }
        ensures { result ≡ of_graph d.now f i };
}

// Every function has f's size, load cost and check cost.
impl Drawn for Function {
    const MOST: usize = places::MOST_FUNCTIONS;

    ghost MOST = { spot.most_functions };

    ghost of_graph = { λ d f i. drawn_function d f };

    fn of_graph(d: &Drawing, f: usize, _i: usize) -> Function {
        Function {
            size: Bytes(drawings::drawn_at(d, f, drawn::SIZE) as u64),
            load: Cycles(drawings::drawn_at(d, f, drawn::LOAD) as u64),
            check: Cycles(drawings::drawn_at(d, f, drawn::CHECK) as u64),
        }
    }
}

// The callee, or function 0 where there is none.
fn or_first(callee: usize) -> usize
    ensures { result ≡ or_first (callee_of callee) }
{
    if drawings::calls_some(callee) {
        callee
    } else {
        0
    }
}

impl Drawn for Vertex {
    const MOST: usize = places::MOST_VERTICES;

    ghost MOST = { spot.most_vertices };

    ghost of_graph = { drawn_vertex };

    fn of_graph(d: &Drawing, f: usize, i: usize) -> Vertex {
        let cost = drawings::drawn_at(d, f, drawn::COST + places::VERTEX_WIDTH * i);
        Vertex {
            function: or_first(drawings::callee_at(d, f, i)),
            cost: Cycles(cost as u64),
        }
    }
}

impl Drawn for Edge {
    const MOST: usize = places::MOST_EDGES;

    ghost MOST = { spot.most_edges };

    ghost of_graph = { drawn_edge };

    fn of_graph(d: &Drawing, f: usize, i: usize) -> Edge {
        Edge {
            from: drawings::edge_from(d, f, i),
            to: drawings::edge_to(d, f, i),
        }
    }
}

impl Drawn for Loop {
    const MOST: usize = places::MOST_LOOPS;

    ghost MOST = { spot.most_loops };

    ghost of_graph = { drawn_loop };

    fn of_graph(d: &Drawing, f: usize, i: usize) -> Loop {
        Loop {
            header: drawings::loop_header(d, f, i),
            last: drawings::loop_last(d, f, i),
            bound: drawings::loop_bound(d, f, i) as u64,
        }
    }
}
