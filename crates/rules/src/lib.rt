// The command rules: what each byte does. Definitions in specs/, theorems about them in proofs/, and no code.
//
// A refusal cannot alter anything, by its type: it carries no world. Painting is `put region picture`. The next world never depends on
// the reply room: `step` and `replies` are two definitions. The height is the state's, and no rule asks how
// long the framebuffer is: the check of a call ties the two.
#![tactic(auto)]
