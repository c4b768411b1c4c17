// Choices, permutations, lists with no element twice, ascending numbers, sorting: definitions.
#![tactic(auto)]
