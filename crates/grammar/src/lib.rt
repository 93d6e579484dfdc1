// Laws of texts that are fixed words and decimal numbers, by a grammar of what may come next: reading by it gives back what a text means, or tells the first
// byte that fits no continuation.
#![tactic(auto)]
