// Theorems about recipes, over their definitions: specs/ has what is claimed, proofs/ why it holds. There is no
// function here, so that a must-fail edit of a function does not prove them again.
#![tactic(auto)]
