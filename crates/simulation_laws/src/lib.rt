// The call over buckets does what the method does; no code.
#![tactic(auto)]
