// The three demands, proved; no code.
#![tactic(auto)]
