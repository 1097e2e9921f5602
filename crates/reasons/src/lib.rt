// Why the screen says so: specs/ says which chain or counts explain an answer, which pair explains a refusal as 11, and
// what is claimed of both; proofs/ has why the claims hold. There is no function here: crates `lost_pairs` and
// `explain` have those.
#![tactic(auto)]

use verdicts::Refusal;

// What was written into the buffer, and how many bytes: the chain, or the counts.
#[derive(Clone, Copy)]
pub enum Explained {
    Chain(u8),
    Counts(u8),
}

// An import or export pair.
#[derive(Clone, Copy)]
pub struct Entry {
    pub object: u8,
    pub area: u8,
}

// A pair whose area would lack access after a removal.
#[derive(Clone, Copy)]
pub enum Lost {
    Import(Entry),
    Export(Entry),
}

// Why an instruction is refused: the refusal, and the pair that explains it, where there is one.
#[derive(Clone, Copy)]
pub struct StepRefused {
    pub refusal: Refusal,
    pub lost: Option<Lost>,
}
