// Calls from a C host mean what the existing ones mean: laws; no code.
#![tactic(auto)]
