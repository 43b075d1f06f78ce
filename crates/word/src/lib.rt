// Theorems of lists within a hold, in proofs/. There is no code here.

#![tactic(auto)]
