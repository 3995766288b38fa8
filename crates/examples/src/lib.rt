// Cases of document 01 and of the orders, computed from the rules (proofs/). There is no code here.
#![tactic(auto)]
