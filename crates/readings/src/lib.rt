// What is read of a record, whatever it holds: what the checks of an instruction ask about, and single questions.
#![tactic(auto, unfolding(state::specs::Stands::site))]

ghost use Rattle.std.specs.Prelude.{◌≡◌, ◌&&◌};
ghost use Rattle.state.specs.Site.{user, area, object, owner, listed, cells};
ghost use Rattle.state.specs.Stands.{site};
ghost use Rattle.state.specs.Walk.{has_first, has_second};
ghost use Rattle.readings.specs.Readings.{seen_of, names_area};

use state::State;

// What the checks of an instruction (activator, a, b) read of the record that is given.
#[derive(Clone, Copy)]
pub struct Seen {
    // the activator is listed
    pub activator: bool,
    // a is listed as an area
    pub area: bool,
    // b is listed as a user, as an area, as an object
    pub user: bool,
    pub outer: bool,
    pub object: bool,
    // the activator owns area a, owns area b
    pub own: bool,
    pub other: bool,
    // user b owns area a
    pub owned: bool,
    // object b is defined in area a
    pub defined: bool,
    // area a lies in area b
    pub inside: bool,
    // object b is imported, is exported by area a
    pub imported: bool,
    pub exported: bool,
}

// What those checks read: all of it at once, whatever the instruction. The numbers are no Bytes: the code is not looked
// at.
pub fn look(s: &State, u: u8, a: u8, b: u8) -> Seen
    ensures { result ≡ seen_of (site s.now) u a b }
{
    Seen {
        activator: relations::is_member(&s.users, u),
        area: relations::is_member(&s.areas, a),
        user: relations::is_member(&s.users, b),
        outer: relations::is_member(&s.areas, b),
        object: relations::is_member(&s.objects, b),
        own: relations::is_pair(&s.owners, u, a),
        other: relations::is_pair(&s.owners, u, b),
        owned: relations::is_pair(&s.owners, b, a),
        defined: relations::is_pair(&s.definitions, b, a),
        inside: relations::is_pair(&s.structure, a, b),
        imported: relations::is_pair(&s.imports, b, a),
        exported: relations::is_pair(&s.exports, b, a),
    }
}

// Is the user listed, and does he own an area?
pub fn is_owner(s: &State, u: u8) -> bool
    ensures { result ≡ (listed (site s.now) user u && has_first (cells (site s.now) owner) u) }
{
    relations::is_member(&s.users, u) & relations::in_row(&s.owners, u)
}

// Are area a and object b listed?
pub fn are_listed(s: &State, a: u8, b: u8) -> bool
    ensures { result ≡ (listed (site s.now) area a && listed (site s.now) object b) }
{
    relations::is_member(&s.areas, a) & relations::is_member(&s.objects, b)
}

// Has the area an owner?
pub fn is_owned(s: &State, a: u8) -> bool
    ensures { result ≡ has_second (cells (site s.now) owner) a }
{
    relations::in_column(&s.owners, a)
}

// Is there a pair that names the area?
pub fn names_area(s: &State, number: u8) -> bool
    ensures { result ≡ names_area (site s.now) number }
{
    relations::in_column(&s.owners, number)
        | relations::in_column(&s.definitions, number)
        | relations::in_row(&s.structure, number)
        | relations::in_column(&s.structure, number)
        | relations::in_column(&s.imports, number)
        | relations::in_column(&s.exports, number)
}
