// On a well-formed volume the answers of the reading calls are the tree's, and what a changing call leaves is the volume of the
// changed tree: theorems alone, no code.
#![tactic(auto)]
