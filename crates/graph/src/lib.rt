// Rules 6 to 9 of document 01: the graph, judged on a problem's numbers, which stand at fixed places.
#![tactic(auto)]

ghost use Rattle.std.specs.Prelude.{◌≡◌, ◌-◌, ◌≤◌, take};
ghost use Rattle.model.specs.Places.{most_loops};
ghost use Rattle.model.specs.Graph.{judge_graph};
ghost use Rattle.model.specs.Numbers.{problem_of};
ghost use Rattle.facts.specs.Fields.{FieldFacts};
ghost use Rattle.lookup.specs.Lists.{vertices_in, edges_in, loops_in};
ghost use Rattle.graph.specs.Loops.{Found, loop_rules};

use model::{Loop, Numbers, Refusal, places};
use ranges::Marks;

// Rules 7 to 9 on what was found of the loops: the lowest that has a bad range, or their number, and their marks.
fn judge_found(l: &Numbers, bad: usize, marks: Marks) -> Result<(), Refusal>
    requires { FieldFacts l.now × Found (loops_in l.now) (vertices_in l.now) bad marks }
    ensures { result ≡ loop_rules (vertices_in l.now) (edges_in l.now) (loops_in l.now) }
{
    if bad < lookup::loop_count(l) {
        return Err(Refusal::WrongLoop(bad as u64));
    }
    edges::judge_words(l, marks)
}

fn last_vertex(l: &Numbers) -> usize
    requires { FieldFacts l.now }
    ensures { result ≡ vertices_in l.now - 1 }
{
    lookup::vertex_count(l) - 1
}

// The loops reach their rules as a lent list. What takes the list is proved by hand, so it only calls.
fn judge_loops(loops: &[Loop], l: &Numbers) -> Result<(), Refusal>
    requires { FieldFacts l.now × (loops.now ≡ loops_in l.now) }
    ensures { result ≡ loop_rules (vertices_in l.now) (edges_in l.now) (loops_in l.now) }
{
    judge_found(
        l,
        ranges::first_bad(loops, last_vertex(l)),
        ranges::marks_of(loops),
    )
}

// Lends the first n of all loops.
fn judge_lent(all: [Loop; places::MOST_LOOPS], n: usize, l: &Numbers) -> Result<(), Refusal>
    requires { FieldFacts l.now × ((n ≤ most_loops) × (take n all ≡ loops_in l.now)) }
    ensures { result ≡ loop_rules (vertices_in l.now) (edges_in l.now) (loops_in l.now) }
{
    judge_loops(&all[..n], l)
}

// The graph, a whole rule at a time, each on the good case of the one before.
pub fn judge(l: &Numbers) -> Result<(), Refusal>
    requires { FieldFacts l.now }
    ensures { result ≡ judge_graph (problem_of l.now) }
{
    entries::judge_vertices(l)?;
    judge_lent(records::loops_of(l), lookup::loop_count(l), l)
}
