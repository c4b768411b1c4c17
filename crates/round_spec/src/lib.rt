// One round over a tree and the waiting nodes: definitions.
#![tactic(auto)]
