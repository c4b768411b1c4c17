// Laws of permutations, of lists with no element twice, of choices, of sorting and of merging; no code.
#![tactic(auto)]
