// The worked examples of document 01, M1 to M10: one table, proved together from the definitions.
#![tactic(auto)]
