// Theorems about site files that are read and written, over definitions: specs/ has what is claimed, proofs/ why it
// holds. There is no function here, so that a must-fail edit of the reader or the writer does not prove them again.
#![tactic(auto)]
