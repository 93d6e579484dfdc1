// Laws of reading and writing together: a file that was read is written again as it was, and numbers that were written are read back.
#![tactic(auto)]
