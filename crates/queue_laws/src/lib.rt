// Queues: rows of nodes whose keys count up, and the queue of the method over them; no code.
#![tactic(auto)]
