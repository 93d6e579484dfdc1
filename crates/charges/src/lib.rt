// Contested vertices as flags, each 0 or 1, from a table of what regions may hold; and visit charges by flags of entered and of contested vertices. A problem is
// its checked numbers.
#![tactic(auto)]

ghost use Rattle.std.specs.Prelude.{◌≡◌, cond, ◌*◌, ◌≤◌, ◌<◌, length, replicate};
ghost use Rattle.model.specs.Numbers.{problem_of};
ghost use Rattle.model.specs.Operations.{Checked};
ghost use Rattle.model.specs.Charges.{visit_charge};
ghost use Rattle.model.specs.Places.{most_vertices};
ghost use Rattle.entered.specs.Entered.{EnteredTold};
ghost use Rattle.charges.specs.Tests.{contested_by, Flags, flagged, Tallied, Charged};

use entered::EnteredFlags;
use model::{Cycles, Numbers, places};

// Whether some walk arrives at v with a rival of its function held: two words have a member in common.
fn is_contested(
    l: &Numbers,
    rivals: &[u32; places::MOST_FUNCTIONS],
    held: &[u32; places::MOST_VERTICES],
    v: usize,
) -> bool
    requires fact_1 { Checked l.now }
    requires fact_2 { v < (problem_of l.now).vertex_count }
    ensures { result ≡ contested_by (problem_of l.now) rivals.now held.now v }
{
    let f = lookup::function_of(l, v);
    0 < held[v] & rivals[f]
}

// A test's answer as a number: 1 where it passes, 0 where it fails.
fn flag_of(set: bool) -> u8
    ensures { result ≡ cond set 1 0 }
{
    set as u8
}

// Flags the contested vertices, and counts them.
pub fn mark_contested(
    l: &Numbers,
    rivals: &[u32; places::MOST_FUNCTIONS],
    held: &[u32; places::MOST_VERTICES],
    flags: &mut [u8; places::MOST_VERTICES],
) -> usize
    requires fact_1 { Checked l.now }
    requires fact_2 { length flags.old ≡ most_vertices }
    ensures { Tallied (problem_of l.now).vertex_count (contested_by (problem_of l.now) rivals.now held.now) flags.new result }
{
    let count = lookup::vertex_count(l);
    let mut tally: usize = 0;
    for v in 0..count {
        let flag = flag_of(is_contested(l, rivals, held, v));
        flags[v] = flag;
        tally += flag as usize;
    }
    tally
}

// Cycles times a flag are cycles: all of them, or none.
fn times(flag: u8, a: Cycles) -> Cycles
    requires { flag ≤ 1 }
    ensures { result.0 ≡ flag * a.0 }
{
    let product = flag as u64 * a.0;
    Cycles(product)
}

// The price of a visit, with a product for its load as in formula (7) of document 003: the vertex's own cost, plus its flag among the entered times its
// function's check cost, plus its flag times its function's load cost.
fn visit_charge(
    l: &Numbers,
    entered: &EnteredFlags,
    flags: &[u8; places::MOST_VERTICES],
    v: usize,
) -> Cycles
    requires checked_1 { Checked l.now }
    requires checked_2 { v < (problem_of l.now).vertex_count }
    requires entered_told_1 { EnteredTold (problem_of l.now) entered.now }
    requires entered_told_2 { Flags (problem_of l.now).vertex_count flags.now }
    ensures { result.0 ≡ visit_charge (problem_of l.now) (flagged flags.now) v }
{
    let own = lookup::own_cost(l, v);
    let f = lookup::function_of(l, v);
    let check = lookup::check_of(l, f);
    let load = lookup::load_of(l, f);
    let unloaded = own + times(entered[v], check);
    unloaded + times(flags[v], load)
}

// The visit charges in a table that is all zero, and stays so past the vertices.
pub fn fill_charges(
    l: &Numbers,
    entered: &EnteredFlags,
    flags: &[u8; places::MOST_VERTICES],
    charge: &mut [u64; places::MOST_VERTICES],
)
    requires checked_1 { Checked l.now }
    requires checked_2 { charge.old ≡ replicate most_vertices 0 }
    requires entered_told_1 { EnteredTold (problem_of l.now) entered.now }
    requires entered_told_2 { Flags (problem_of l.now).vertex_count flags.now }
    ensures { Charged (problem_of l.now) (flagged flags.now) charge.new }
{
    let count = lookup::vertex_count(l);
    for v in 0..count {
        let visit = visit_charge(l, entered, flags, v);
        charge[v] = visit.0;
    }
}
