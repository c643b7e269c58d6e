// What the planner's words mean, and the laws that follow: definitions in specs/, theorems in proofs/. There is no code here.
#![tactic(auto)]
