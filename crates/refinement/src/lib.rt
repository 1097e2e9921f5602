// Old and new records: specs/ says that they stand for the same states one to one, and that every instruction and
// question gives the same on both; proofs/ has why. There is no function here.
#![tactic(auto)]
