// What the contracts of the public calls come to: any two results that one allows coincide. There is no code here.

#![tactic(auto)]
