// Laws of interference and runs: what closed tables hold, that simulated cycles are covered, and tests that tell contested, early and cold.
#![tactic(auto)]
