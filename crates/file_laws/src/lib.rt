// What writing to the store means, where its directory keeps its rules: definitions in specs/, laws in proofs/, and no code.
//
// A valid store is its entries written out, and then the file area. A record more, a file less, none at all: each is such a store again,
// every other file keeps its bytes, and what is freed can be used at once.
#![tactic(auto)]
