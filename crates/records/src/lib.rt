// The record of a state as bytes, for programs in other languages: specs/ says which bit is which, and what is claimed
// of records; proofs/ has why the claims hold. There is no function here: crates `record_reader`, `record_writer` and
// `record_changes` have those, and a must-fail edit of one does not prove the claims again.
#![tactic(auto)]

// How many bytes a record has: `record_size`, as the promises of those who use it say.
pub const SIZE: usize = 1040;

// The byte at which each set begins: `list_start`.
pub const USERS: usize = 0;

pub const AREAS: usize = 4;

pub const OBJECTS: usize = 8;

// The byte at which row 0 of each relation begins: `pair_start`.
pub const OWNERS: usize = 16;

pub const DEFINITIONS: usize = 144;

pub const STRUCTURE: usize = 400;

pub const IMPORTS: usize = 528;

pub const EXPORTS: usize = 784;
