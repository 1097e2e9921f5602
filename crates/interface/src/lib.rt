// What the functions of the C interface are, and what is claimed of them: specs/ has both, proofs/ why the claims hold.
// There is no function here: crate `capi` has those, and a must-fail edit of one does not prove the claims again.
#![tactic(auto)]
