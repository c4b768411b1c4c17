// The nodes of the method at leaf tags, and the structs that hold them: definitions.
#![tactic(auto)]
