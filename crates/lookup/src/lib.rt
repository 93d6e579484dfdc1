// The one door to a problem's numbers: readers by function, vertex, edge and loop, each equal to the problem's own.
#![tactic(auto)]

ghost use Rattle.std.specs.Prelude.{◌≡◌, ◌<◌, length};
ghost use Rattle.model.specs.Numbers.{problem_of};
ghost use Rattle.model.specs.Graph.{edge, loop, holds};
ghost use Rattle.model.specs.Costs.{size_of, load_cost, check_cost, function_of, own_cost};
ghost use Rattle.facts.specs.Fields.{FieldFacts};
ghost use Rattle.lookup.specs.Lists.{vertices_in, edges_in, loops_in};
ghost use Rattle.lookup.specs.Plain.{range_of};

use model::{Bytes, Cycles, Numbers, places};

pub fn scratchpad(l: &Numbers) -> Bytes
    ensures { result.0 ≡ (problem_of l.now).scratchpad.0 }
{
    Bytes(l[places::SCRATCHPAD])
}

pub fn function_count(l: &Numbers) -> usize
    ensures { result ≡ (problem_of l.now).function_count }
{
    l[places::FUNCTION_COUNT] as usize
}

pub fn size_of(l: &Numbers, f: usize) -> Bytes
    requires fact_1 { FieldFacts l.now }
    requires fact_2 { f < (problem_of l.now).function_count }
    ensures { result.0 ≡ size_of (problem_of l.now) f }
{
    Bytes(l[places::SIZE + places::FUNCTION_WIDTH * f])
}

pub fn load_of(l: &Numbers, f: usize) -> Cycles
    requires fact_1 { FieldFacts l.now }
    requires fact_2 { f < (problem_of l.now).function_count }
    ensures { result.0 ≡ load_cost (problem_of l.now) f }
{
    Cycles(l[places::LOAD + places::FUNCTION_WIDTH * f])
}

pub fn check_of(l: &Numbers, f: usize) -> Cycles
    requires fact_1 { FieldFacts l.now }
    requires fact_2 { f < (problem_of l.now).function_count }
    ensures { result.0 ≡ check_cost (problem_of l.now) f }
{
    Cycles(l[places::CHECK + places::FUNCTION_WIDTH * f])
}

pub fn vertex_count(l: &Numbers) -> usize
    ensures { result ≡ vertices_in l.now }
{
    l[places::VERTEX_COUNT] as usize
}

pub fn function_of(l: &Numbers, v: usize) -> usize
    requires fact_1 { FieldFacts l.now }
    requires fact_2 { v < vertices_in l.now }
    ensures { result ≡ function_of (problem_of l.now) v }
{
    l[places::FUNCTION + places::VERTEX_WIDTH * v] as usize
}

pub fn own_cost(l: &Numbers, v: usize) -> Cycles
    requires fact_1 { FieldFacts l.now }
    requires fact_2 { v < vertices_in l.now }
    ensures { result.0 ≡ own_cost (problem_of l.now) v }
{
    Cycles(l[places::COST + places::VERTEX_WIDTH * v])
}

pub fn edge_count(l: &Numbers) -> usize
    requires { FieldFacts l.now }
    ensures { result ≡ length (edges_in l.now) }
{
    l[places::EDGE_COUNT] as usize
}

pub fn loop_count(l: &Numbers) -> usize
    requires { FieldFacts l.now }
    ensures { result ≡ length (loops_in l.now) }
{
    l[places::LOOP_COUNT] as usize
}

pub fn edge_from(l: &Numbers, i: usize) -> usize
    requires fact_1 { FieldFacts l.now }
    requires fact_2 { i < length (edges_in l.now) }
    ensures { result ≡ (edge (edges_in l.now) i).from }
{
    l[places::FROM + places::EDGE_WIDTH * i] as usize
}

pub fn edge_to(l: &Numbers, i: usize) -> usize
    requires fact_1 { FieldFacts l.now }
    requires fact_2 { i < length (edges_in l.now) }
    ensures { result ≡ (edge (edges_in l.now) i).to }
{
    l[places::TO + places::EDGE_WIDTH * i] as usize
}

pub fn loop_header(l: &Numbers, i: usize) -> usize
    requires fact_1 { FieldFacts l.now }
    requires fact_2 { i < length (loops_in l.now) }
    ensures { result ≡ (loop (loops_in l.now) i).header }
{
    l[places::HEADER + places::LOOP_WIDTH * i] as usize
}

pub fn loop_last(l: &Numbers, i: usize) -> usize
    requires fact_1 { FieldFacts l.now }
    requires fact_2 { i < length (loops_in l.now) }
    ensures { result ≡ (loop (loops_in l.now) i).last }
{
    l[places::LAST + places::LOOP_WIDTH * i] as usize
}

pub fn loop_bound(l: &Numbers, i: usize) -> u64
    requires fact_1 { FieldFacts l.now }
    requires fact_2 { i < length (loops_in l.now) }
    ensures { result ≡ (loop (loops_in l.now) i).bound }
{
    l[places::BOUND + places::LOOP_WIDTH * i]
}

// Whether the range from header to last holds v.
pub fn range_holds(header: usize, last: usize, v: usize) -> bool
    ensures { result ≡ holds (range_of header last) v }
{
    if header <= v {
        return v <= last;
    }
    false
}
