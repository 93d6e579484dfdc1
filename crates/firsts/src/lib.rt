// Laws of the second total: simulated cycles are at most it, and numbers kept up to a cap tell the smaller of two totals.
#![tactic(auto)]
