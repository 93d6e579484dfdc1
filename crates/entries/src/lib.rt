// Rule 6 of document 01: every vertex but 0 has an edge from a lower vertex, and every vertex but the last has an edge out.
#![tactic(auto)]

ghost use Rattle.std.specs.Prelude.{◌≡◌, not, ◌&&◌, ◌≤◌, length, eqb, ltb};
ghost use Rattle.model.specs.Graph.{lacks, broken};
ghost use Rattle.model.specs.declared.Refusal.TheVariants.{MissingEdge};
ghost use Rattle.facts.specs.Fields.{FieldFacts};
ghost use Rattle.lookup.specs.Lists.{vertices_in, edges_in};
ghost use Rattle.entries.specs.Marks.{entry_mark, lacks_by, EndsMarked};

use model::{Numbers, Refusal, places};

fn entry_mark(mark: u8, from: usize, to: usize) -> u8
    ensures { result ≡ entry_mark mark from to }
{
    if from < to { 1 } else { mark }
}

#[tactic(auto, using(lookup::proofs::Places::from_small, lookup::proofs::Places::to_small))]
fn mark_ends(
    l: &Numbers,
    entered: &mut [u8; places::MOST_VERTICES],
    exited: &mut [u8; places::MOST_VERTICES],
)
    requires fact_1 { FieldFacts l.now }
    requires fact_2 { EndsMarked (edges_in l.now) 0 entered.old exited.old }
    ensures { EndsMarked (edges_in l.now) (length (edges_in l.now)) entered.new exited.new }
{
    let count = lookup::edge_count(l);
    for i in 0..count {
        let from = lookup::edge_from(l, i);
        let to = lookup::edge_to(l, i);
        entered[to] = entry_mark(entered[to], from, to);
        exited[from] = 1;
    }
}

fn lacks_edge(entry: u8, exit: u8, v: usize, count: usize) -> bool
    requires { 1 ≤ count }
    ensures { result ≡ lacks_by entry exit v count }
{
    0 < v && entry != 1 || v < count - 1 && exit != 1
}

// Refuses at the lowest vertex that lacks an edge.
#[tactic(auto, using(lookup::proofs::Places::few_vertices, lookup::proofs::Places::some_vertex))]
pub fn judge_vertices(l: &Numbers) -> Result<(), Refusal>
    requires { FieldFacts l.now }
    ensures { result ≡ broken (vertices_in l.now) (lacks (vertices_in l.now) (edges_in l.now)) MissingEdge }
{
    let mut entered = [0u8; places::MOST_VERTICES];
    let mut exited = [0u8; places::MOST_VERTICES];
    mark_ends(l, &mut entered, &mut exited);
    let count = lookup::vertex_count(l);
    for v in 0..count {
        if lacks_edge(entered[v], exited[v], v, count) {
            return Err(Refusal::MissingEdge(v as u64));
        }
    }
    Ok(())
}
