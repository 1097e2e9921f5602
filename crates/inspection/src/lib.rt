// Whether a record is sound: consistent, acceptable, with at least one area, valid, and without an import by the area
// that defines the object. Rows are tested one by one, and what is wrong is gathered to the end, so that the compiler
// looks at many rows at once.
#![tactic(auto)]

ghost use Rattle.std.specs.Prelude.{◌≡◌, ◌↔◌, ◌≤◌, T};
ghost use Rattle.state.specs.Below.{each_below};
ghost use Rattle.state.specs.Site.{area, members};
ghost use Rattle.state.specs.Stands.{site};
ghost use Rattle.soundness.specs.Sound.{NoOwnImport, Sound};
ghost use Rattle.soundness.specs.Tests.{some_listed, is_well_formed, no_own_import, is_sound};
ghost use Rattle.inspection.specs.Parts.{row_named, user_fits, object_fits, user_at, area_at, object_at, apart_at};

use search::Object;
use state::State;

// Does each pair of a row name a listed area, and is there none unless the row's own number is listed?
#[tactic(auto, unfolding(crate::specs::Parts::row_named))]
fn is_named(row: u32, first: bool, areas: u32) -> bool
    ensures { result ≡ row_named row first areas }
{
    if first {
        bits::is_subset(row, areas)
    } else {
        bits::is_subset(row, 0)
    }
}

// Is what a user owns listed, and owns he an area if he is listed?
#[tactic(auto, unfolding(crate::specs::Parts::user_fits))]
fn user_fits(owned: u32, listed: bool, areas: u32) -> bool
    ensures { result ≡ user_fits owned listed areas }
{
    is_named(owned, listed, areas) & (!listed | !bits::is_empty(owned))
}

// So it is for every user.
#[tactic(auto, using(state::proofs::Below::each_none, state::proofs::Below::each_step))]
fn users_fit(owners: &[u32; 32], users: u32, areas: u32) -> bool
    ensures { result ≡ each_below 32 (user_at owners.now users areas) }
{
    let mut fits = true;
    for (u, owned) in owners.iter().enumerate() {
        fits &= user_fits(*owned, bits::is_set(users, u as u8), areas);
    }
    fits
}

// Is what each structure pair names listed?
#[tactic(auto, using(state::proofs::Below::each_none, state::proofs::Below::each_step))]
fn areas_fit(structure: &[u32; 32], areas: u32) -> bool
    ensures { result ≡ each_below 32 (area_at structure.now areas) }
{
    let mut fits = true;
    for (a, outer) in structure.iter().enumerate() {
        fits &= is_named(*outer, bits::is_set(areas, a as u8), areas);
    }
    fits
}

// Is what an object's pairs name listed, and is it defined in exactly one area if it is listed?
#[tactic(auto, unfolding(crate::specs::Parts::object_fits))]
fn object_fits(o: Object, listed: bool, areas: u32) -> bool
    ensures { result ≡ object_fits o listed areas }
{
    is_named(o.defined, listed, areas)
        & is_named(o.imported, listed, areas)
        & is_named(o.exported, listed, areas)
        & (!listed | bits::is_single(o.defined))
}

// So it is for each of 32 objects, from `from` on; `objects` is their row of the set.
#[tactic(auto, using(state::proofs::Below::each_none, state::proofs::Below::each_step))]
fn objects_fit(s: &State, from: u8, objects: u32, areas: u32) -> bool
    requires { from ≤ 32 }
    ensures { result ≡ each_below 32 (object_at s.now from objects areas) }
{
    let mut fits = true;
    // By number, which picks a row of three relations and a place of the set.
    for k in 0..32u8 {
        fits &= object_fits(
            search::object_of(s, from + k),
            bits::is_set(objects, k),
            areas,
        );
    }
    fits
}

// Has the record an area at all?
pub fn has_area(s: &State) -> bool
    ensures { result ≡ some_listed (members (site s.now) area) }
{
    !bits::is_empty(s.areas[0])
}

// Is the record consistent and acceptable, with at least one area?
pub fn is_well_formed(s: &State) -> bool
    ensures { result ≡ is_well_formed (site s.now) }
{
    let areas = s.areas[0];
    users_fit(&s.owners, s.users[0], areas)
        & areas_fit(&s.structure, areas)
        & objects_fit(s, 0, s.objects[0], areas)
        & objects_fit(s, 32, s.objects[1], areas)
        & bits::is_subset(areas, relations::seconds(&s.owners))
        & !bits::is_empty(areas)
}

// Is no pair in both relations?
fn are_disjoint(these: &[u32; 64], those: &[u32; 64]) -> bool
    ensures { result ≡ each_below 64 (apart_at these.now those.now) }
{
    let mut apart = true;
    for (this, that) in these.iter().zip(those) {
        apart &= bits::is_empty(bits::intersection(*this, *that));
    }
    apart
}

// Does no area import an object that it defines? Any content may be asked about.
pub fn has_no_own_import(s: &State) -> bool
    ensures equation { result ≡ no_own_import (site s.now) }
    ensures meaning { T result ↔ NoOwnImport (site s.now) }
{
    are_disjoint(&s.imports, &s.definitions)
}

// Is the record sound? Any content may be asked about.
pub fn is_sound(s: &State) -> bool
    ensures equation { result ≡ is_sound (site s.now) }
    ensures meaning { T result ↔ Sound (site s.now) }
{
    // Taken first, since a proof knows from here on the lengths that the type says: a sound record has its shape.
    let (imports, definitions) = (&s.imports, &s.definitions);
    is_well_formed(s) && are_disjoint(imports, definitions) && validity::is_valid(s)
}
