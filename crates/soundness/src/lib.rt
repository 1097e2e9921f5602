// What soundness is, and that tests decide it: specs/ has both, proofs/ why. There is no function here: crates
// `validity` and `inspection` have those, and a must-fail edit of one does not prove the theorems again.
#![tactic(auto)]
