// The checks of Bound and Run through 13, one after the other: the problem's own, then the layout's.
#![tactic(auto)]
