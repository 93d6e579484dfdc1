// Laws of spare places: two records that are the same but for these pass the same checks, and Write writes the same.
#![tactic(auto)]
