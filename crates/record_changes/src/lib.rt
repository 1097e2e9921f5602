// Obeys an instruction on the bytes of a record, in place: the bits that it changes are written, and nothing else.
#![tactic(auto)]

ghost use Rattle.std.specs.Prelude.{◌≡◌, ◌<◌, T, length};
ghost use Rattle.state.specs.Site.{limit, owner, first_kind, cells, with_listed, with_pair};
ghost use Rattle.state.specs.Stands.{kind_of, relation_of};
ghost use Rattle.state.specs.Walk.{has_first};
ghost use Rattle.records.specs.Record.{list_start, pair_start, bytes_of, is_record, state_of};
ghost use Rattle.instructions.specs.Decode.{fits};
ghost use Rattle.successors.specs.Successor.{without_owner, changed};
ghost use Rattle.record_changes.specs.Change.{changed_record};
ghost use Rattle.record_changes.specs.Writing.{written};

use instructions::{Bytes, Rule, Target};
use state::{Kind, Relation};

// The byte at which a set begins.
fn list_start(kind: Kind) -> usize
    ensures { result ≡ list_start (kind_of kind) }
{
    match kind {
        Kind::User => records::USERS,
        Kind::Area => records::AREAS,
        Kind::Object => records::OBJECTS,
    }
}

// The byte at which row 0 of a relation begins.
fn pair_start(relation: Relation) -> usize
    ensures { result ≡ pair_start (relation_of relation) }
{
    match relation {
        Relation::Owner => records::OWNERS,
        Relation::Definition => records::DEFINITIONS,
        Relation::Structure => records::STRUCTURE,
        Relation::Import => records::IMPORTS,
        Relation::Export => records::EXPORTS,
    }
}

// Writes whether bit `place` of byte `at` is set.
fn write(bytes: &mut [u8], at: usize, place: u8, present: bool)
    requires { (at < length bytes.old) × (place < 8) }
    ensures { bytes.new ≡ written bytes.old at place present }
{
    let row = bits::with_bit(bytes[at] as u32, place, present);
    bytes[at] = row as u8;
}

// Lists the number, or unlists it. That the bytes are a record is a clause here and below: a struct that says so would
// lend them on in each call, and each clause would still name what they hold.
fn list(bytes: &mut [u8], kind: Kind, number: u8, present: bool)
    requires { T (is_record bytes.old) × (number < limit (kind_of kind)) }
    ensures { bytes.new ≡ bytes_of (with_listed (state_of bytes.old) (kind_of kind) number present) }
{
    let start = list_start(kind);
    write(bytes, start + (number / 8) as usize, number % 8, present);
}

// Adds the pair to the relation, or removes it.
fn relate(bytes: &mut [u8], relation: Relation, first: u8, area: u8, present: bool)
    requires { T (is_record bytes.old) × (first < limit (first_kind (relation_of relation))) × (area < 32) }
    ensures { bytes.new ≡ bytes_of (with_pair (state_of bytes.old) (relation_of relation) first area present) }
{
    let start = pair_start(relation);
    write(
        bytes,
        start + first as usize * 4 + (area / 8) as usize,
        area % 8,
        present,
    );
}

// Does the user own an area?
fn owns_any(bytes: &[u8], user: u8) -> bool
    requires { T (is_record bytes.now) × (user < 32) }
    ensures { result ≡ has_first (cells (state_of bytes.now) owner) user }
{
    let at = records::OWNERS + user as usize * 4;
    bytes[at..at + 4].iter().any(|byte| *byte != 0)
}

// The user no longer owns the area: he is listed only if he owns one still.
fn remove_owner(bytes: &mut [u8], user: u8, area: u8)
    requires { T (is_record bytes.old) × (user < 32) × (area < 32) }
    ensures { bytes.new ≡ bytes_of (without_owner (state_of bytes.old) user area) }
{
    relate(bytes, Relation::Owner, user, area, false);
    if !owns_any(bytes, user) {
        list(bytes, Kind::User, user, false);
    }
}

// Adds or removes what the table says of a, b and the activator. The cases are those of `successors::change`, which
// asks nothing of its numbers and writes to a State: so there are two.
fn set_target(bytes: &mut [u8], rule: Rule, four: Bytes)
    requires { T (is_record bytes.old) × (four.activator < 32) × (four.a < 32) × T (fits rule.target four.b) }
    ensures { bytes.new ≡ bytes_of (changed (state_of bytes.old) rule.target rule.adds four.activator four.a four.b) }
{
    let present = rule.adds;
    match rule.target {
        Target::TheArea => {
            if present {
                list(bytes, Kind::Area, four.a, true);
                relate(bytes, Relation::Owner, four.activator, four.a, true);
            } else {
                remove_owner(bytes, four.activator, four.a);
                list(bytes, Kind::Area, four.a, false);
            }
        }
        Target::Owner => {
            if present {
                list(bytes, Kind::User, four.b, true);
                relate(bytes, Relation::Owner, four.b, four.a, true);
            } else {
                remove_owner(bytes, four.b, four.a);
            }
        }
        Target::Definition => {
            list(bytes, Kind::Object, four.b, present);
            relate(bytes, Relation::Definition, four.b, four.a, present);
        }
        Target::Structure => relate(bytes, Relation::Structure, four.a, four.b, present),
        Target::Import => relate(bytes, Relation::Import, four.b, four.a, present),
        Target::Export => relate(bytes, Relation::Export, four.b, four.a, present),
    }
}

// Makes a record that of the state which the instruction would give: the places that it adds or removes are written,
// and nothing else. Four bytes that fit no instruction change nothing, and a buffer of another length stays as it is.
pub fn change(bytes: &mut [u8], four: Bytes)
    ensures { bytes.new ≡ changed_record bytes.old four }
{
    if bytes.len() != records::SIZE {
        return;
    }
    if let Ok(x) = instructions::decode(four) {
        set_target(bytes, instructions::rule_of(x), four);
    }
}
