// Drawings, function by function, each function of one byte.
ghost use Rattle.std.specs.Prelude.{◌+◌, ◌*◌, ◌<◌, ◌≤◌, length};
ghost use Rattle.model.specs.Places as spot;
ghost use Rattle.model.specs.Drawings.{functions_place, drawn_width};

use model::{Drawing, drawn, places};

// The callee of a vertex that calls nothing.
pub const NONE: u32 = drawn::NONE as u32;

const LAST_FUNCTION: usize = places::MOST_FUNCTIONS - 1;

const LAST_VERTEX: usize = places::MOST_VERTICES - 1;

// The numbers of a part, stored from a place on.
fn put(d: &mut Drawing, at: usize, part: &[u32])
    requires { at + length part.now ≤ functions_place + drawn_width * spot.most_functions }
{
    for i in 0..part.len() {
        d[at + i] = part[i];
    }
}

// So many functions, and a scratchpad of as many bytes.
pub fn functions(d: &mut Drawing, count: u32) {
    d[drawn::SCRATCHPAD] = count;
    d[drawn::FUNCTION_COUNT] = count;
}

// The size and the load cost of f.
fn head(d: &mut Drawing, f: usize, load: u32)
    requires { f < spot.most_functions }
{
    let at = drawn::FUNCTIONS + drawn::WIDTH * f;
    d[at + drawn::SIZE] = 1;
    d[at + drawn::LOAD] = load;
}

// Function f from its lists: of each its count, and then its items' numbers.
pub fn function(
    d: &mut Drawing,
    f: usize,
    load: u32,
    vertices: &[u32],
    edges: &[u32],
    loops: &[u32],
)
    requires f_lt_most_functions { (f < spot.most_functions) × (spot.vertex_count + length vertices.now ≤ spot.edge_count) }
    requires edges_bound { (spot.edge_count + length edges.now ≤ spot.loop_count) × (spot.loop_count + length loops.now ≤ spot.end) }
{
    head(d, f, load);
    let at = drawn::FUNCTIONS + drawn::WIDTH * f;
    put(d, at + drawn::GRAPH, vertices);
    put(d, at + drawn::EDGE_COUNT, edges);
    put(d, at + drawn::LOOP_COUNT, loops);
}

// Vertex v of f, with an edge to the next one. The last vertex's edge stands past the count of edges.
fn link(d: &mut Drawing, f: usize, v: usize, callee: u32)
    requires { (f < spot.most_functions) × (v < spot.most_vertices) }
{
    let at = drawn::FUNCTIONS + drawn::WIDTH * f;
    d[at + drawn::CALLEE + places::VERTEX_WIDTH * v] = callee;
    d[at + drawn::FROM + places::EDGE_WIDTH * v] = v as u32;
    d[at + drawn::TO + places::EDGE_WIDTH * v] = v as u32 + 1;
}

// The vertices of f from a first one up to an end, with one callee.
fn links(d: &mut Drawing, f: usize, first: usize, end: usize, callee: u32)
    requires fact_1 { f < spot.most_functions }
    requires fact_2 { end ≤ spot.most_vertices }
{
    for v in first..end {
        link(d, f, v, callee);
    }
}

// Function f as a chain: so many calls of one function, and so many vertices behind them that call nothing.
pub fn chain(d: &mut Drawing, f: usize, callee: u32, calls: usize, more: usize)
    requires { (f < spot.most_functions) × ((0 < more) × (calls + more ≤ spot.most_vertices)) }
{
    head(d, f, 1);
    let at = drawn::FUNCTIONS + drawn::WIDTH * f;
    let count = calls + more;
    d[at + drawn::GRAPH] = count as u32;
    d[at + drawn::EDGE_COUNT] = count as u32 - 1;
    links(d, f, 0, calls, callee);
    links(d, f, calls, count, NONE);
}

// Every function but the last calls the next one from each of its vertices but the last.
pub fn tower(d: &mut Drawing) {
    for f in 0..LAST_FUNCTION {
        chain(d, f, f as u32 + 1, LAST_VERTEX, 1);
    }
    chain(d, LAST_FUNCTION, NONE, 0, 1);
}
