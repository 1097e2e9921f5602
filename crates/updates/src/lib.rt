// Updates of a record: a number is listed or not, a pair is put in or taken out. A number or pair that lies outside
// changes nothing.
#![tactic(auto, unfolding(state::specs::Stands::site))]

ghost use Rattle.std.specs.Prelude.{◌≡◌};
ghost use Rattle.state.specs.Site.{with_listed, with_pair};
ghost use Rattle.state.specs.Stands.{site, kind_of, relation_of};

use state::{Kind, Relation, State};

// A user, an area or an object.
pub fn list(s: &mut State, kind: Kind, number: u8, present: bool)
    ensures { site s.new ≡ with_listed (site s.old) (kind_of kind) number present }
{
    match kind {
        Kind::User => relations::mark_in(&mut s.users, number, present),
        Kind::Area => relations::mark_in(&mut s.areas, number, present),
        Kind::Object => relations::mark_in(&mut s.objects, number, present),
    }
}

// A pair of one of the five relations.
pub fn relate(s: &mut State, relation: Relation, first: u8, second: u8, present: bool)
    ensures { site s.new ≡ with_pair (site s.old) (relation_of relation) first second present }
{
    match relation {
        Relation::Owner => relations::put_in(&mut s.owners, first, second, present),
        Relation::Definition => relations::put_in(&mut s.definitions, first, second, present),
        Relation::Structure => relations::put_in(&mut s.structure, first, second, present),
        Relation::Import => relations::put_in(&mut s.imports, first, second, present),
        Relation::Export => relations::put_in(&mut s.exports, first, second, present),
    }
}
