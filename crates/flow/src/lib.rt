// What the flows over a problem's edges share: where the edges from each vertex begin, and the visits to the vertices until nothing changes. What a flow is,
// and that it comes to rest, is in specs/ and proofs/.
#![tactic(auto)]

ghost use Rattle.std.specs.Prelude.{◌≡◌, ℕ, ◌<◌, List, ◌↔◌, length};
ghost use Rattle.model.specs.declared.Problem.{Problem};
ghost use Rattle.model.specs.Numbers.{problem_of};
ghost use Rattle.model.specs.Graph.{edges_of};
ghost use Rattle.model.specs.Operations.{Checked};
ghost use Rattle.bits.specs.Words.{Step, Row, Sound};
ghost use Rattle.flow.specs.Starts.{Ends, Starts};
ghost use Rattle.flow.specs.Rounds.{Flow, Visited, Swept, Closed, Underway};
ghost use Rattle.flow.specs.Laws.{Laws};
ghost use Rattle.model.specs.Places as places;

use model::{Numbers, places};

// Where the edges from each vertex begin, and behind them where the last ones end.
pub type Begins = [usize; places::MOST_VERTICES + 1];

// Which vertices wait for a visit.
pub type Marks = [bool; places::MOST_VERTICES];

// Behind the last edge from each vertex, at the place after the vertex's own; 0 where it has none.
fn ends(l: &Numbers) -> Begins
    requires { Checked l.now }
    ensures { Ends (problem_of l.now) (length (edges_of (problem_of l.now))) result }
{
    let mut behind = [0usize; places::MOST_VERTICES + 1];
    for i in 0..lookup::edge_count(l) {
        behind[lookup::edge_from(l, i) + 1] = i + 1;
    }
    behind
}

// Where the edges from each vertex begin in the list: behind the last one from a lower vertex, since the list ascends.
pub fn starts(l: &Numbers) -> Begins
    requires { Checked l.now }
    ensures { Starts (problem_of l.now) result }
{
    let mut begins = ends(l);
    for u in 0..lookup::vertex_count(l) {
        begins[u + 1] = begins[u + 1].max(begins[u]);
    }
    begins
}

// A flow as code: what the edges from a vertex bring, and how the row of an end gains that.
pub trait Flow {
    // What the edges from one vertex bring, the same over each of them.
    type Brought: Drop;

    ghost flow: { Self → (p : Problem) → Flow p };

    // The members that it brings to word f of a row.
    ghost member: { Self.Brought → ℕ → ℕ → Type 0 };

    fn leaving(&self, l: &Numbers, u: usize, words: &[u32]) -> Self::Brought
        requires checked { Checked l.now }
        requires there { u < (problem_of l.now).vertex_count }
        requires long { length words.now ≡ (flow self.now (problem_of l.now)).size }
        ensures { let F = flow self.now (problem_of l.now) in
            (f b : ℕ) → f < F.width → member result f b ↔ F.Brings words.now u f b };

    // The row of v gains what is brought. Whether that changed it. That l is passed is for the contract alone.
    fn gain(&self, l: &Numbers, brought: &Self::Brought, v: usize, words: &mut [u32]) -> bool
        requires small { v < places.most_vertices }
        requires long { length words.old ≡ (flow self.now (problem_of l.now)).size }
        ensures { let F = flow self.now (problem_of l.now) in
            Step (Row (F.at v) (member brought.now) F.width) words.old words.new result };

    ghost laws: { (s : Self) (l : List ℕ) → Checked l → Laws (flow s (problem_of l)) };
}

// If u is marked, what it has goes on over its edges, and the ends that gain are marked. Whether any did.
fn visit<F: Flow>(
    flow: &F,
    l: &Numbers,
    starts: &Begins,
    u: usize,
    words: &mut [u32],
    marks: &mut Marks,
) -> bool
    requires underway { Underway l.now (F.flow flow.now (problem_of l.now)) starts.now marks.old words.old }
    requires there { u < (problem_of l.now).vertex_count }
    ensures { Visited (F.flow flow.now (problem_of l.now)) u marks.old words.old marks.new words.new result }
{
    if !marks[u] {
        return false;
    }
    marks[u] = false;
    let brought = flow.leaving(l, u, words);
    let mut changed = false;
    for i in starts[u]..starts[u + 1] {
        let v = lookup::edge_to(l, i);
        let gained = flow.gain(l, &brought, v, words);
        marks[v] |= gained;
        changed |= gained;
    }
    changed
}

// Every marked vertex, in ascending order.
fn sweep<F: Flow>(
    flow: &F,
    l: &Numbers,
    starts: &Begins,
    words: &mut [u32],
    marks: &mut Marks,
) -> bool
    requires { Underway l.now (F.flow flow.now (problem_of l.now)) starts.now marks.old words.old }
    ensures { Swept (F.flow flow.now (problem_of l.now)) words.old marks.new words.new result }
{
    let mut changed = false;
    for u in 0..lookup::vertex_count(l) {
        changed |= visit(flow, l, starts, u, words, marks);
    }
    changed
}

// Sweeps until nothing changes.
pub fn close<F: Flow>(flow: &F, l: &Numbers, begins: &Begins, words: &mut [u32])
    requires checked { Checked l.now }
    requires starts { Starts (problem_of l.now) begins.now }
    requires long { length words.old ≡ (F.flow flow.now (problem_of l.now)).size }
    requires sound { Sound (F.flow flow.now (problem_of l.now)).Good words.old }
    ensures { Closed (F.flow flow.now (problem_of l.now)) words.old words.new }
{
    let mut marks = [true; places::MOST_VERTICES];
    let mut changed = true;
    while changed {
        changed = sweep(flow, l, begins, words, &mut marks);
    }
}
