// The greatest visit charges and the greatest second total over all lawful walks, exact up to the bound's limit. Entered, contested and early vertices are told
// by flags and words.
#![tactic(auto)]

ghost use Rattle.model.specs.Numbers.{problem_of};
ghost use Rattle.model.specs.Operations.{Checked};
ghost use Rattle.model.specs.Charges.{visit_charge, charges, second_total};
ghost use Rattle.greatest.specs.Greatest.{GreatestCapped};
ghost use Rattle.chains.specs.Chains.{Chained};
ghost use Rattle.stays.specs.Tables.{cap};
ghost use Rattle.entered.specs.Entered.{EnteredTold};
ghost use Rattle.charges.specs.Tests.{Flags, flagged};
ghost use Rattle.early.specs.Early.{early_in, EarlyApart};

use chains::{EdgeTable, LoopTable};
use early::EarlyWords;
use entered::EnteredFlags;
use model::{Cycles, Numbers, places};

// The greatest visit charges: entering a loop is charged nothing.
pub fn greatest_charges(
    l: &Numbers,
    edges: &EdgeTable,
    loops: &LoopTable,
    entered: &EnteredFlags,
    flags: &[u8; places::MOST_VERTICES],
) -> Cycles
    requires checked_1 { Checked l.now }
    requires checked_2 { EnteredTold (problem_of l.now) entered.now }
    requires flags_1 { Flags (problem_of l.now).vertex_count flags.now }
    requires flags_2 { Chained l.now edges.now loops.now }
    ensures { GreatestCapped (problem_of l.now) cap (charges (visit_charge (problem_of l.now) (flagged flags.now))) result.0 }
{
    let mut charge = [0u64; places::MOST_VERTICES];
    charges::fill_charges(l, entered, flags, &mut charge);
    let free = [0u64; places::MOST_VERTICES];
    iterations::greatest_weight(l, edges, loops, &charge, &free)
}

// The greatest second total.
pub fn greatest_second(
    l: &Numbers,
    edges: &EdgeTable,
    loops: &LoopTable,
    entered: &EnteredFlags,
    flags: &[u8; places::MOST_VERTICES],
    early: &EarlyWords,
) -> Cycles
    requires checked_1 { Checked l.now }
    requires checked_2 { EnteredTold (problem_of l.now) entered.now }
    requires checked_3 { Flags (problem_of l.now).vertex_count flags.now }
    requires chained_1 { Chained l.now edges.now loops.now }
    requires chained_2 { EarlyApart (problem_of l.now) flags.now early.now }
    ensures { GreatestCapped (problem_of l.now) cap (second_total (problem_of l.now) (flagged flags.now) (early_in early.now)) result.0 }
{
    let charged = second::second_flags(l, loops, early, flags);
    let mut charge = [0u64; places::MOST_VERTICES];
    charges::fill_charges(l, entered, &charged, &mut charge);
    let enter = second::entry_charges(l, loops, early);
    iterations::greatest_weight(l, edges, loops, &charge, &enter)
}
