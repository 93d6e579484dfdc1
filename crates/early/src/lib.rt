// Early vertices and the functions that they bring, from the flags of contested vertices and a table of first reach; and what such functions' loads cost.
// A problem is its checked numbers.
#![tactic(auto)]

ghost use Rattle.std.specs.Prelude.{◌≡◌, ◌≤◌, ◌<◌};
ghost use Rattle.model.specs.Numbers.{problem_of};
ghost use Rattle.model.specs.Operations.{Checked};
ghost use Rattle.model.specs.Places.{most_vertices};
ghost use Rattle.bits.specs.Tests.{has};
ghost use Rattle.early.specs.Early.{early_by, early_word, EarlyTable, Gathered, first_load, LoadedFirst};

use model::{Cycles, Numbers, places};

// A word for each vertex: its function as the only member, or none.
pub type EarlyWords = [u32; places::MOST_VERTICES];

// The function of v, where v is not flagged and a walk reaches it with no earlier vertex of that function; else no function.
fn early_at(
    l: &Numbers,
    flags: &[u8; places::MOST_VERTICES],
    fresh: &[u32; places::MOST_VERTICES],
    v: usize,
) -> u32
    requires fact_1 { Checked l.now }
    requires fact_2 { v < (problem_of l.now).vertex_count }
    ensures { result ≡ early_word (problem_of l.now) (early_by (problem_of l.now) flags.now fresh.now) v }
{
    if flags[v] == 1 {
        return 0;
    }
    let f = lookup::function_of(l, v);
    if bits::has_bit(fresh[v], f) {
        return 1u32 << f;
    }
    0
}

// The functions of the early vertices.
#[tactic(auto, using(lookup::proofs::Places::facts, lookup::proofs::Places::few_vertices))]
pub fn early_words(
    l: &Numbers,
    flags: &[u8; places::MOST_VERTICES],
    fresh: &[u32; places::MOST_VERTICES],
) -> EarlyWords
    requires { Checked l.now }
    ensures { EarlyTable (problem_of l.now) (early_by (problem_of l.now) flags.now fresh.now) result }
{
    let count = lookup::vertex_count(l);
    let mut early = [0u32; places::MOST_VERTICES];
    for v in 0..count {
        early[v] = early_at(l, flags, fresh, v);
    }
    early
}

// The functions of the early vertices from `first` on, up to `end`.
pub fn functions_in(early: &EarlyWords, first: usize, end: usize) -> u32
    requires fact_1 { first ≤ end }
    requires fact_2 { end ≤ most_vertices }
    ensures { Gathered early.now first end result }
{
    let mut functions: u32 = 0;
    for v in first..end {
        functions |= early[v];
    }
    functions
}

// What a function adds to the loads of some: its load cost where it is one of them.
#[tactic(auto, using(lookup::proofs::Places::facts, lookup::proofs::Places::few_functions))]
fn first_load(l: &Numbers, functions: u32, f: usize) -> Cycles
    requires fact_1 { Checked l.now }
    requires fact_2 { f < (problem_of l.now).function_count }
    ensures { result.0 ≡ first_load (problem_of l.now) (has functions) f }
{
    if bits::has_bit(functions, f) {
        return lookup::load_of(l, f);
    }
    Cycles(0)
}

// The load cost of each of these functions once: the first loads, where they are the cold ones.
pub fn first_loads(l: &Numbers, functions: u32) -> Cycles
    requires { Checked l.now }
    ensures { LoadedFirst (problem_of l.now) (has functions) result.0 }
{
    let count = lookup::function_count(l);
    let mut loads = Cycles(0);
    for f in 0..count {
        loads = loads + first_load(l, functions, f);
    }
    loads
}
