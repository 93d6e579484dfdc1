// Laws of spare places: two records that are the same but for these get the same answer from Interference, Bound, Run and Eviction.
#![tactic(auto)]
