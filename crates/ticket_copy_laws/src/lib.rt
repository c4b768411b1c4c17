// A copied ticket asks the same and has no unused field that is not zero; a file is copied piece by piece. No code.
#![tactic(auto)]
