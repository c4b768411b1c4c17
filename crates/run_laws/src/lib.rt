// What holds of every run of the method, for any structure; no code.
#![tactic(auto)]
