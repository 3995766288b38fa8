// Order 8: the rules of a stream queue with a line of waiting messages for each of its streams, the account that runs by them, and
// what is proved of both (specs/, proofs/). There is no code here.
#![tactic(auto)]
