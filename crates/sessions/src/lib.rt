// What the lines of a session do, and what is claimed of it: specs/ has both, proofs/ why. There is no function here:
// crate `transcript` has those.
#![tactic(auto)]
