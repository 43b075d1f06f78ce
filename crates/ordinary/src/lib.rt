// What is promised of ordinary ramps: that flattening them is never refused. There is no code here.

#![tactic(auto)]
