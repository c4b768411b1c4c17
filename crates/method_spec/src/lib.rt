// The method without buckets or bytes: definitions.
#![tactic(auto)]
