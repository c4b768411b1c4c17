// The slot format at leaf tags is lawful, and which nodes are proper; no code.
#![tactic(auto)]
