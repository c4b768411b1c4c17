// What a call comes to by the causes of a refusal: the first that is met, or none; no code.
#![tactic(auto)]
