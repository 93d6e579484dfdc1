// The second total's tables: which visits are charged a load, and what entering each loop is charged. A problem is its checked numbers.
#![tactic(auto)]

ghost use Rattle.std.specs.Prelude.{◌≡◌, ◌<◌, length};
ghost use Rattle.model.specs.Numbers.{problem_of};
ghost use Rattle.model.specs.Operations.{Checked};
ghost use Rattle.model.specs.Graph.{loop};
ghost use Rattle.model.specs.Places.{most_vertices};
ghost use Rattle.lookup.specs.Lists.{loops_in};
ghost use Rattle.chains.specs.Chains.{LoopChains};
ghost use Rattle.early.specs.Early.{early_in, EarlyTable};
ghost use Rattle.second.specs.Second.{second_flag, SecondFlags, EntryCharged, EntriesCharged};

use chains::LoopTable;
use early::EarlyWords;
use model::{Cycles, Numbers, places};

// The flag of v in the second total: it is set where v is early and no loop holds it, and else as it was.
fn second_flag(
    loops: &LoopTable,
    early: &EarlyWords,
    flags: &[u8; places::MOST_VERTICES],
    v: usize,
) -> u8
    requires { v < most_vertices }
    ensures { result ≡ second_flag loops.now early.now flags.now v }
{
    if 0 < loops[v] {
        return flags[v];
    }
    if 0 < early[v] {
        return 1;
    }
    flags[v]
}

// Flags of the vertices whose visits are charged a load: those that are flagged as contested, and the early ones that no loop holds.
#[tactic(auto, using(chains::proofs::Checks::checked_bounds))]
pub fn second_flags(
    l: &Numbers,
    loops: &LoopTable,
    early: &EarlyWords,
    flags: &[u8; places::MOST_VERTICES],
) -> [u8; places::MOST_VERTICES]
    requires { Checked l.now }
    ensures { SecondFlags (problem_of l.now) loops.now early.now flags.now result }
{
    let count = lookup::vertex_count(l);
    let mut charged = [0u8; places::MOST_VERTICES];
    for v in 0..count {
        charged[v] = second_flag(loops, early, flags, v);
    }
    charged
}

// What entering loop i is charged: if no loop before it holds its header, the load cost of each function of which its range holds an early vertex.
#[tactic(auto, using(chains::proofs::Checks::checked_bounds))]
fn entry_charge(l: &Numbers, loops: &LoopTable, early: &EarlyWords, i: usize) -> Cycles
    requires checked_1 { Checked l.now }
    requires checked_2 { LoopChains l.now loops.now }
    requires early_table_1 { EarlyTable (problem_of l.now) (early_in early.now) early.now }
    requires early_table_2 { i < length (loops_in l.now) }
    ensures { EntryCharged (problem_of l.now) early.now (loop (loops_in l.now) i) result.0 }
{
    if 0 < loops[places::MOST_VERTICES + i] {
        return Cycles(0);
    }
    let header = lookup::loop_header(l, i);
    let last = lookup::loop_last(l, i);
    early::first_loads(l, early::functions_in(early, header, last + 1))
}

// What entering each loop is charged, by its header.
#[tactic(auto, using(chains::proofs::Checks::checked_bounds))]
pub fn entry_charges(
    l: &Numbers,
    loops: &LoopTable,
    early: &EarlyWords,
) -> [u64; places::MOST_VERTICES]
    requires checked_1 { Checked l.now }
    requires checked_2 { LoopChains l.now loops.now }
    requires early_table { EarlyTable (problem_of l.now) (early_in early.now) early.now }
    ensures { EntriesCharged (problem_of l.now) early.now result }
{
    let count = lookup::loop_count(l);
    let mut enter = [0u64; places::MOST_VERTICES];
    for i in 0..count {
        let entry = entry_charge(l, loops, early, i);
        let header = lookup::loop_header(l, i);
        enter[header] = entry.0;
    }
    enter
}
