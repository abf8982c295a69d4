// The calls from C: what start, feed, arrive and take answer, and what they leave in every lent byte. Definitions in specs/, theorems about lists of
// calls in proofs/, and no code.
#![tactic(auto)]
