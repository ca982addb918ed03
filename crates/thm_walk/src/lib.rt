// The walk of a directory of the tree: on a laid-out volume it is the tree's. Theorems alone, no code.
#![tactic(auto)]
