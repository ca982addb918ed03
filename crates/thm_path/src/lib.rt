// On a volume names, paths and holding directories are found where the tree has them: theorems alone, no code.
#![tactic(auto)]
