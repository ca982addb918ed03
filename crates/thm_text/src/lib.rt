// What text is: the characters of Unicode but for controls, each in the bytes that RFC 3629 gives it. Theorems alone, no code.
#![tactic(auto)]
