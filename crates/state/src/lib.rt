// The record of a site: listed users, areas and objects, and five relations.
#![tactic(auto)]

ghost use Rattle.std.specs.Prelude.{◌≡◌};
ghost use Rattle.state.specs.Site.{empty, founding};
ghost use Rattle.state.specs.Stands.{site};

// What can be listed.
#[derive(Clone, Copy, Debug, PartialEq, Eq)]
pub enum Kind {
    User,
    Area,
    Object,
}

// The five relations.
#[derive(Clone, Copy, Debug, PartialEq, Eq)]
pub enum Relation {
    Owner,
    Definition,
    Structure,
    Import,
    Export,
}

// Rows of 32 bits. In a set, number i is bit i % 32 of row i / 32. In a relation the pair (i, j) is bit j of row i.
#[derive(Clone, Copy)]
pub struct State {
    pub users: [u32; 1],
    pub areas: [u32; 1],
    pub objects: [u32; 2],
    pub owners: [u32; 32],
    pub definitions: [u32; 64],
    pub structure: [u32; 32],
    pub imports: [u32; 64],
    pub exports: [u32; 64],
}

impl State {
    pub const USERS: u8 = 32;

    pub const AREAS: u8 = 32;

    pub const OBJECTS: u8 = 64;

    // Nothing is listed, and there is no pair.
    pub fn empty() -> Self
        ensures { site result ≡ empty }
    {
        State {
            users: [0; 1],
            areas: [0; 1],
            objects: [0; 2],
            owners: [0; 32],
            definitions: [0; 64],
            structure: [0; 32],
            imports: [0; 64],
            exports: [0; 64],
        }
    }

    // User 0 owns area 0, and there is nothing else.
    pub fn founding() -> Self
        ensures { site result ≡ founding }
    {
        let mut owners = [0u32; 32];
        owners[0] = 1;
        State {
            users: [1; 1],
            areas: [1; 1],
            objects: [0; 2],
            owners: owners,
            definitions: [0; 64],
            structure: [0; 32],
            imports: [0; 64],
            exports: [0; 64],
        }
    }
}
