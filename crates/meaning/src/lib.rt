// What a card stands for in the rules, what holds of every card, and that power-up and the register entries are the rules' start
// and steps: definitions (specs/Card, specs/Fit) and laws, no code.
#![tactic(auto)]
