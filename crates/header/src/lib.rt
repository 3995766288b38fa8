// What include/wekshurag.h says beyond each function's contract: the sizes of its structs (proofs/Sizes), and that demand 3 holds of any
// list of its calls (proofs/Demand3). There is no code here.
#![tactic(auto)]
