// Rounds listed one by one, and the largest count at their closes: laws; no code.
#![tactic(auto)]
