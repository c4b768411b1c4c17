// One call over a bucket tree: definitions.
#![tactic(auto)]
