// The edges and the loops of an inlined drawing, stored among a problem's numbers.
#![tactic(auto)]

ghost use Rattle.std.specs.Prelude.{◌≡◌, ◌<◌, ◌≤◌, ◌-◌, ◌+◌, get_or, length, replicate, eqb};
ghost use mathlib.Core.List.{List, ◌∷◌, [], flat_map};
ghost use Rattle.model.specs.Search.{lowest_below};
ghost use Rattle.model.specs.declared.Row.{Row};
ghost use Rattle.model.specs.Places as spots;
ghost use Rattle.model.specs.Graph.{loops_of};
ghost use Rattle.model.specs.Drawings.{drawn_functions, drawn_loops, drawn_loop, called_by, graph_of};
ghost use Rattle.model.specs.Inlining.{row_at, leaving, edges_from, around, inlined_edges, inlined_loops};
ghost use Rattle.drawings.specs.Facts.{DrawingFacts};
ghost use Rattle.rows.specs.Fit.{RowFits};
ghost use Rattle.links.specs.Put.{EdgesPut, AddsEdges, LoopsPut, AddsLoops, edge, range};
ghost use Rattle.links.specs.Placed.{spot, spot_count, Placed, Inside, Rowed};
ghost use Rattle.links.specs.First.{FirstFrom};

use model::{Drawing, Numbers, Row, drawn, places};

// The table of places: for each copy's first row and each vertex, the vertex's row in that copy; the number of rows where there is none.
pub const SPOT_COUNT: usize = places::MOST_VERTICES * places::MOST_VERTICES;

pub type Spots = [u8; SPOT_COUNT];

// Fills the table, in which no vertex has a row yet. The lowest row wins its spot, as the last that is stored.
pub fn fill_places(rows: &[Row], table: &mut Spots)
    requires fact_1 { Inside rows.now }
    requires fact_2 { length rows.now ≤ spots.most_vertices }
    requires fact_3 { table.old ≡ replicate spot_count (length rows.now) }
    ensures { Placed rows.now table.new }
{
    for i in (0..rows.len()).rev() {
        let r = rows[i];
        table[places::MOST_VERTICES * r.first + r.vertex] = i as u8;
    }
}

fn place_of(table: &Spots, first: usize, vertex: usize) -> usize
    requires { (first < spots.most_vertices) × (vertex < spots.most_vertices) }
    ensures { result ≡ get_or table.now (spot first vertex) 0 }
{
    usize::from(table[places::MOST_VERTICES * first + vertex])
}

// One edge behind the k that are put; past the room, the count tells.
fn put_edge(numbers: &mut Numbers, k: usize, from: usize, to: usize) -> usize
    ensures { AddsEdges numbers.old k (edge from to ∷ []) numbers.new result }
{
    if k < places::MOST_EDGES {
        numbers[places::FROM + places::EDGE_WIDTH * k] = from as u64;
        numbers[places::TO + places::EDGE_WIDTH * k] = to as u64;
        k + 1
    } else {
        places::MOST_EDGES + 1
    }
}

// The edges ascend, so that the first from v on is found by halving.
fn first_edge(d: &Drawing, f: usize, v: usize) -> usize
    requires fact_1 { DrawingFacts d.now }
    requires fact_2 { f < drawn_functions d.now }
    ensures { FirstFrom d.now f v result }
{
    let mut low: usize = 0;
    let mut high = drawings::edge_count(d, f);
    while low < high {
        let middle = (low + high) / 2;
        if drawings::edge_from(d, f, middle) < v {
            low = middle + 1;
        } else {
            high = middle;
        }
    }
    low
}

// The edges of a row's graph, from its vertex, in its copy, as edges from i.
#[tactic(auto, using(crate::proofs::Drawn::row_function, crate::proofs::Drawn::row_edges))]
fn put_leaving(
    d: &Drawing,
    here: Row,
    i: usize,
    table: &Spots,
    numbers: &mut Numbers,
    k: usize,
) -> usize
    requires fact_1 { DrawingFacts d.now }
    requires fact_2 { RowFits d.now i here }
    requires fact_3 { i < spots.most_vertices }
    ensures { (rows : List Row) → Placed rows table.now → AddsEdges numbers.old k (leaving d.now rows i here) numbers.new result }
{
    let f = here.function;
    let v = here.vertex;
    let first = here.first;
    let n = drawings::edge_count(d, f);
    let mut at = k;
    for j in first_edge(d, f, v)..n {
        if drawings::edge_from(d, f, j) != v {
            return at;
        }
        let to = place_of(table, first, drawings::edge_to(d, f, j));
        at = put_edge(numbers, at, i, to);
    }
    at
}

// The edges from row i: a call vertex leads to its copy's first vertex, and a copy's last vertex takes over the call's edges out.
#[tactic(auto, using(crate::proofs::Drawn::row_function, crate::proofs::Drawn::row_vertex))]
fn put_row(
    d: &Drawing,
    here: Row,
    caller: Row,
    i: usize,
    table: &Spots,
    numbers: &mut Numbers,
    k: usize,
) -> usize
    requires fact_1 { DrawingFacts d.now }
    requires fact_2 { RowFits d.now i here }
    requires fact_3 { RowFits d.now i caller }
    requires fact_4 { i < spots.most_vertices }
    ensures { (rows : List Row) → Placed rows table.now → row_at rows (here.first - 1) ≡ caller → AddsEdges numbers.old k (edges_from d.now rows (called_by d.now here.function here.vertex) i here) numbers.new result }
{
    let f = here.function;
    let v = here.vertex;
    if drawings::callee_at(d, f, v) != drawn::NONE {
        return put_edge(numbers, k, i, i + 1);
    }
    if v + 1 < drawings::vertex_count(d, f) {
        return put_leaving(d, here, i, table, numbers, k);
    }
    if here.first == 0 {
        return k;
    }
    put_leaving(d, caller, i, table, numbers, k)
}

// The edges of the result, by ascending row.
pub fn put_edges(d: &Drawing, rows: &[Row], table: &Spots, numbers: &mut Numbers) -> usize
    requires { Rowed d.now rows.now table.now }
    ensures { EdgesPut numbers.old (inlined_edges d.now rows.now) numbers.new result }
{
    let mut k: usize = 0;
    for (i, here) in rows.iter().enumerate() {
        if k > places::MOST_EDGES {
            return k;
        }
        let caller = rows[rows::one_before(here.first)];
        k = put_row(d, *here, caller, i, table, numbers, k);
    }
    k
}

fn put_loop(numbers: &mut Numbers, k: usize, header: usize, last: usize, bound: usize) -> usize
    ensures { AddsLoops numbers.old k (range header last bound ∷ []) numbers.new result }
{
    if k < places::MOST_LOOPS {
        numbers[places::HEADER + places::LOOP_WIDTH * k] = header as u64;
        numbers[places::LAST + places::LOOP_WIDTH * k] = last as u64;
        numbers[places::BOUND + places::LOOP_WIDTH * k] = bound as u64;
        k + 1
    } else {
        places::MOST_LOOPS + 1
    }
}

// A range ends before the vertex that follows its last one in the copy: so it holds the copies that its vertices call.
fn last_in(table: &Spots, first: usize, last: usize) -> usize
    requires fact_1 { first < spots.most_vertices }
    requires fact_2 { last + 1 < spots.most_vertices }
    ensures { result ≡ get_or table.now (spot first (last + 1)) 0 - 1 }
{
    rows::one_before(place_of(table, first, last + 1))
}

// The loop whose header is v, or their number where there is none.
fn headed(d: &Drawing, f: usize, v: usize) -> usize
    requires fact_1 { f < spots.most_functions }
    requires fact_2 { drawn_loops d.now f ≤ spots.most_loops }
    ensures { result ≡ lowest_below (drawn_loops d.now f) (λ j. eqb (drawn_loop d.now f j).header v) }
{
    let n = drawings::loop_count(d, f);
    for j in 0..n {
        if drawings::loop_header(d, f, j) == v {
            return j;
        }
    }
    n
}

// The loops of a row's graph whose header is its vertex, in its copy: one at most, since headers ascend.
#[tactic(auto, using(crate::proofs::Drawn::row_function, crate::proofs::Drawn::row_loops))]
fn put_headed(
    d: &Drawing,
    here: Row,
    i: usize,
    table: &Spots,
    numbers: &mut Numbers,
    k: usize,
) -> usize
    requires fact_1 { DrawingFacts d.now }
    requires fact_2 { RowFits d.now i here }
    requires fact_3 { i < spots.most_vertices }
    ensures { (rows : List Row) → Placed rows table.now → AddsLoops numbers.old k (flat_map (around d.now rows i here) (loops_of (graph_of d.now here.function))) numbers.new result }
{
    let f = here.function;
    let first = here.first;
    let j = headed(d, f, here.vertex);
    if j < drawings::loop_count(d, f) {
        let last = last_in(table, first, drawings::loop_last(d, f, j));
        return put_loop(numbers, k, i, last, drawings::loop_bound(d, f, j));
    }
    k
}

// The loops of the result, by ascending row.
pub fn put_loops(d: &Drawing, rows: &[Row], table: &Spots, numbers: &mut Numbers) -> usize
    requires { Rowed d.now rows.now table.now }
    ensures { LoopsPut numbers.old (inlined_loops d.now rows.now) numbers.new result }
{
    let mut k: usize = 0;
    for (i, here) in rows.iter().enumerate() {
        if k > places::MOST_LOOPS {
            return k;
        }
        k = put_headed(d, *here, i, table, numbers, k);
    }
    k
}
