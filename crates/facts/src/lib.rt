// Laws of a problem's numbers that are good field by field, with no position in them: numbers that were read or judged good are, what holds of good numbers, and what filling leaves of them.
#![tactic(auto)]
