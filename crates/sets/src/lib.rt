// Interference sets, by data flow over the edges until nothing changes. A set of functions is a word, its members the word's bits.
#![tactic(auto)]

ghost use Rattle.std.specs.Prelude.{◌≡◌, ◌<◌, length};
ghost use Rattle.model.specs.Numbers.{problem_of};
ghost use Rattle.model.specs.Operations.{Checked};
ghost use Rattle.bits.specs.Words.{RowMember};
ghost use Rattle.flow.proofs.Reached.{starts};
ghost use Rattle.sets.specs.Sets.{set_words, Leaves, set_flow, SetTable};
ghost use Rattle.sets.specs.Laws.{set_laws};
ghost use Rattle.model.specs.Places as places;

use flow::Flow;
use model::{Numbers, places};

// A word for each vertex and function.
pub const SET_WORDS: usize = places::MOST_VERTICES * places::MOST_FUNCTIONS;

// The words of a vertex.
const ROW_WORDS: u32 = places::MOST_FUNCTIONS as u32;

// What edges from u, of function g, bring to each set of their ends: to that of f the members of u's own, and g; but nothing if g is f. By itself, so that g
// stays a word of 32 bits and is compared with several f at a time.
fn row_leaving(table: &[u32], u: usize, g: u32) -> [u32; places::MOST_FUNCTIONS]
    requires fact_1 { (u < places.most_vertices) × (g < places.most_functions) }
    requires fact_2 { length table.now ≡ set_words }
    ensures { Leaves table.now u g places.most_functions result }
{
    let mut row = [0u32; places::MOST_FUNCTIONS];
    for f in 0..ROW_WORDS {
        row[f as usize] = bits::brought(table[places::MOST_FUNCTIONS * u + f as usize], f, g);
    }
    row
}

// Interference sets as a flow, in rows of a word for each function.
struct Interference;

impl Flow for Interference {
    type Brought = [u32; places::MOST_FUNCTIONS];

    ghost flow = { λ s p. set_flow p };

    ghost member = { RowMember };

    fn leaving(&self, l: &Numbers, u: usize, table: &[u32]) -> [u32; places::MOST_FUNCTIONS] {
        row_leaving(table, u, lookup::function_of(l, u) as u32)
    }

    fn gain(
        &self,
        _l: &Numbers,
        row: &[u32; places::MOST_FUNCTIONS],
        v: usize,
        table: &mut [u32],
    ) -> bool {
        let mut changed = false;
        for f in 0..places::MOST_FUNCTIONS {
            changed |= bits::gain(table, places::MOST_FUNCTIONS * v + f, row[f]);
        }
        changed
    }

    ghost laws = { λ s l ok. set_laws (problem_of l) (starts l ok) };
}

// The interference set of each vertex and function, at as many words a vertex as there may be functions.
pub fn sets(l: &Numbers, table: &mut [u32; SET_WORDS])
    requires { Checked l.now }
    ensures { SetTable (problem_of l.now) table.new }
{
    *table = [0u32; SET_WORDS];
    flow::close(&Interference, l, &flow::starts(l), table);
}
