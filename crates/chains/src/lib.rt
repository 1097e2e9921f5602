// Chains of areas: specs/ says what a chain of an object is, which of them is the first, and what is claimed of it;
// proofs/ has why the claims hold. There is no function here: crate `chain_finder` has those.
#![tactic(auto)]
