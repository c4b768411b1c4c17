// The waiting nodes as the slots of a row, for the length of a call: a round over the slots is the round over the nodes; no code.
#![tactic(auto)]
