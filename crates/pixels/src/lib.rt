// The framebuffer as a picture: definitions in specs/, laws in proofs/, and no code.
//
// A framebuffer is a list of bytes, 30 to a row of 240 pixels. Nothing here knows how many rows there are: the length says it.
// Every painter of the crates above is one `put region picture`, and cites the laws of this crate.
#![tactic(auto)]
