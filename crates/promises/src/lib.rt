// The promises D1 to D3 and S1 to S7 and S12, as theorems of the public calls' contracts: theorems alone, no code.
#![tactic(auto)]
