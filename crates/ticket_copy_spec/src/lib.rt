// A file of tickets copied with unused fields zeroed: definitions.
#![tactic(auto)]
