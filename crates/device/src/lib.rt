// The device as the rules see it (specs/): its state, the rules of a stream queue with one message in work, its account and what
// is proved of both (proofs/). There is no code here.
#![tactic(auto)]
