// The groupings of up to eight functions, in order.
#![tactic(auto)]
