// Order 8: the calls on a card of several streams, each queue with a line of waiting messages for each of its streams, and what is
// proved of any list of them (specs/, proofs/). There is no code here.
#![tactic(auto)]
