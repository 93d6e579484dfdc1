// Laws of the heaviest lawful walk, with a charge at each visit and one at each entry of a loop: the numbers by which a program finds its weight, and that
// they are exact.
#![tactic(auto)]
