// Reading a drawing. What a drawing is like whose graphs pass document 01's checks is in proofs/.
#![tactic(auto)]

ghost use Rattle.std.specs.Prelude.{◌≡◌, ◌<◌};
ghost use Rattle.model.specs.Places as spot;
ghost use Rattle.model.specs.Drawings.{drawn_scratchpad, drawn_functions, drawn_at, drawn_item, drawn_width, drawn_count, drawn_edges, drawn_loops, drawn_edge, drawn_loop, callee_of};
ghost use Rattle.model.specs.Inlined.{calls_some};

use model::{Drawing, drawn, places};

fn wide(x: u32) -> usize
    ensures { result ≡ x }
{
    x as usize
}

pub fn scratchpad(d: &Drawing) -> usize
    ensures { result ≡ drawn_scratchpad d.now }
{
    wide(d[drawn::SCRATCHPAD])
}

pub fn function_count(d: &Drawing) -> usize
    ensures { result ≡ drawn_functions d.now }
{
    wide(d[drawn::FUNCTION_COUNT])
}

// Number k of function f.
pub fn drawn_at(d: &Drawing, f: usize, k: usize) -> usize
    requires { (f < spot.most_functions) × (k < drawn_width) }
    ensures { result ≡ drawn_at d.now f k }
{
    wide(d[drawn::FUNCTIONS + drawn::WIDTH * f + k])
}

pub fn vertex_count(d: &Drawing, f: usize) -> usize
    requires { f < spot.most_functions }
    ensures { result ≡ drawn_count d.now f }
{
    drawn_at(d, f, drawn::GRAPH)
}

// What stands for the callee of vertex v of f.
pub fn callee_at(d: &Drawing, f: usize, v: usize) -> usize
    requires { (f < spot.most_functions) × (v < spot.most_vertices) }
    ensures { result ≡ drawn_item d.now f spot.function spot.vertex_width v }
{
    drawn_at(d, f, drawn::CALLEE + places::VERTEX_WIDTH * v)
}

pub fn edge_count(d: &Drawing, f: usize) -> usize
    requires { f < spot.most_functions }
    ensures { result ≡ drawn_edges d.now f }
{
    drawn_at(d, f, drawn::EDGE_COUNT)
}

pub fn edge_from(d: &Drawing, f: usize, i: usize) -> usize
    requires { (f < spot.most_functions) × (i < spot.most_edges) }
    ensures { result ≡ (drawn_edge d.now f i).from }
{
    drawn_at(d, f, drawn::FROM + places::EDGE_WIDTH * i)
}

pub fn edge_to(d: &Drawing, f: usize, i: usize) -> usize
    requires { (f < spot.most_functions) × (i < spot.most_edges) }
    ensures { result ≡ (drawn_edge d.now f i).to }
{
    drawn_at(d, f, drawn::TO + places::EDGE_WIDTH * i)
}

pub fn loop_count(d: &Drawing, f: usize) -> usize
    requires { f < spot.most_functions }
    ensures { result ≡ drawn_loops d.now f }
{
    drawn_at(d, f, drawn::LOOP_COUNT)
}

pub fn loop_header(d: &Drawing, f: usize, i: usize) -> usize
    requires { (f < spot.most_functions) × (i < spot.most_loops) }
    ensures { result ≡ (drawn_loop d.now f i).header }
{
    drawn_at(d, f, drawn::HEADER + places::LOOP_WIDTH * i)
}

pub fn loop_last(d: &Drawing, f: usize, i: usize) -> usize
    requires { (f < spot.most_functions) × (i < spot.most_loops) }
    ensures { result ≡ (drawn_loop d.now f i).last }
{
    drawn_at(d, f, drawn::LAST + places::LOOP_WIDTH * i)
}

pub fn loop_bound(d: &Drawing, f: usize, i: usize) -> usize
    requires { (f < spot.most_functions) × (i < spot.most_loops) }
    ensures { result ≡ (drawn_loop d.now f i).bound }
{
    drawn_at(d, f, drawn::BOUND + places::LOOP_WIDTH * i)
}

// Whether what stands for a callee is one.
pub fn calls_some(callee: usize) -> bool
    ensures { result ≡ calls_some (callee_of callee) }
{
    callee != drawn::NONE
}
