// The theorems of the method, for lists of calls from the empty structure; no code.
#![tactic(auto)]
