// What a stream says about bars, kept beside any machine: definitions in specs/, the theorem over every list of inputs in proofs/, no code.
//
// The theorem asks one thing of a machine: that every step obeys its event. So a new painting command costs one clause there, and nothing here.
#![tactic(auto)]
