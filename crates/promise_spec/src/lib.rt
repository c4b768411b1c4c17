// What the promises of document 02's changes say beyond the demands, and the demands for a C host: definitions.
#![tactic(auto)]
