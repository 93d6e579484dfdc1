// Rules 8 and 9 of document 01: edges into loops and back to their headers. The loops around a vertex are a word, of which bit i stands for loop i.
#![tactic(auto)]

ghost use Rattle.std.specs.Prelude.{◌≡◌, ◌≤◌, length};
ghost use Rattle.model.specs.Places.{most_vertices};
ghost use Rattle.model.specs.Graph.{edge, loop, wrong_edge, no_return, broken, and_then};
ghost use Rattle.model.specs.declared.Refusal.TheVariants.{WrongEdge, NoEdgeBack};
ghost use Rattle.facts.specs.Fields.{FieldFacts};
ghost use Rattle.lookup.specs.Lists.{vertices_in, edges_in, loops_in};
ghost use Rattle.ranges.specs.Marks.{marks_of};
ghost use Rattle.edges.specs.Words.{AroundTo, wrong_by, edges_answer, Around, Headed, Returned};

use model::{Numbers, Refusal, places};
use ranges::Marks;

// For each vertex the loops around it.
type Words = [u32; places::MOST_VERTICES];

// The words of the first `count` vertices. A loop is held over from its header to its last vertex.
fn around_of(marks: &Marks, count: usize) -> Words
    requires { count ≤ most_vertices }
    ensures { AroundTo count marks.now result }
{
    let mut around = [0u32; places::MOST_VERTICES];
    let mut held: u32 = 0;
    for v in 0..count {
        let here = held | marks[v];
        let ended = marks[places::MOST_VERTICES + v];
        around[v] = here;
        held = (here | ended) ^ ended;
    }
    around
}

// Rule 8. An edge into a range from outside goes to its header. An edge whose end is not above its start goes to the header of a loop that holds
// its start.
#[tactic(auto, unfolding(crate::specs::Words::wrong_by))]
fn is_wrong(into: u32, out: u32, heads: u32, from: usize, to: usize) -> bool
    ensures { result ≡ wrong_by into out heads from to }
{
    let right = out | heads;
    ((into | right) ^ right) != 0 || to <= from && (heads & out) == 0
}

// Rule 8: the lowest wrong edge; or where there is none, for rule 9 the loops to whose header an edge goes from inside their range.
#[tactic(auto, using(lookup::proofs::Places::few_vertices, lookup::proofs::Places::from_below, lookup::proofs::Places::to_below))]
fn judge_edges(l: &Numbers, around: &Words, marks: &Marks) -> Result<u32, Refusal>
    requires fact_1 { FieldFacts l.now }
    requires fact_2 { Around (vertices_in l.now) (loops_in l.now) around.now }
    requires fact_3 { Headed (vertices_in l.now) (loops_in l.now) marks.now }
    ensures { result ≡ edges_answer (edges_in l.now) (loops_in l.now) around.now marks.now }
{
    let count = lookup::edge_count(l);
    let mut returned: u32 = 0;
    for i in 0..count {
        let from = lookup::edge_from(l, i);
        let to = lookup::edge_to(l, i);
        let heads = marks[to];
        let out = around[from];
        if is_wrong(around[to], out, heads, from, to) {
            return Err(Refusal::WrongEdge(i as u64));
        }
        returned |= heads & out;
    }
    Ok(returned)
}

// Rule 9. Every loop has an edge from inside its range to its header.
fn judge_returns(l: &Numbers, returned: u32) -> Result<(), Refusal>
    requires fact_1 { FieldFacts l.now }
    requires fact_2 { Returned (edges_in l.now) (loops_in l.now) returned }
    ensures { result ≡ broken (length (loops_in l.now)) (λ j. no_return (edges_in l.now) (loop (loops_in l.now) j)) NoEdgeBack }
{
    let count = lookup::loop_count(l);
    for j in 0..count {
        if !bits::has_bit(returned, j) {
            return Err(Refusal::NoEdgeBack(j as u64));
        }
    }
    Ok(())
}

// Both rules, where the loops are marked.
pub fn judge_words(l: &Numbers, marks: Marks) -> Result<(), Refusal>
    requires fact_1 { FieldFacts l.now }
    requires fact_2 { marks ≡ marks_of (loops_in l.now) (length (loops_in l.now)) }
    ensures { result ≡ and_then (broken (length (edges_in l.now)) (λ i. wrong_edge (loops_in l.now) (edge (edges_in l.now) i)) WrongEdge)
        (broken (length (loops_in l.now)) (λ j. no_return (edges_in l.now) (loop (loops_in l.now) j)) NoEdgeBack) }
{
    let around = around_of(&marks, lookup::vertex_count(l));
    let returned = judge_edges(l, &around, &marks)?;
    judge_returns(l, returned)
}
