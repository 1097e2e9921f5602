// Access to an object: specs/ says what a step, a chain and the least number of steps are, and what is claimed of them;
// proofs/ has why the claims hold. There is no function here: crate `search` has those, and a must-fail edit of one
// does not prove the claims again.
#![tactic(auto)]
