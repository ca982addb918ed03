// The whole check as a function on the bytes of an image, and that a volume alone passes it. Theorems and definitions, no code.
#![tactic(auto)]
