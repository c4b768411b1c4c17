// What every round keeps; no code.
#![tactic(auto)]
