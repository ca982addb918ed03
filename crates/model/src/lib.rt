// The rules, with no code: the volume as a tree, its bytes, W1 to W5, the calls as edits of the tree. The definitions are in
// specs/, in the order of specs/Lib.antt; what follows from them is in proofs/.
#![tactic(auto)]
