// What a put of a present key on a full map changes; no code.
#![tactic(auto)]
