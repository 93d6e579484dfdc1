// Laws of drawings that call: their call stacks match the vertices of the one problem, runs match walks, and its graph keeps the rules.
#![tactic(auto)]
