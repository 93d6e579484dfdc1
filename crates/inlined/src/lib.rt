// Laws of the inlined problem: its rows, edges and loops are those of the call stack's states, and it passes document 01's checks.
#![tactic(auto)]
