// What a call keeps on any content: nothing is lost when it closes the store; no code.
#![tactic(auto)]
