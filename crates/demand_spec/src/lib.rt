// The three demands, as statements about opening and calls.
#![tactic(auto)]
