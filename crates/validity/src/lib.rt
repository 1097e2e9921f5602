// Whether a record is valid: for each import or export pair the area has access to the object.
#![tactic(auto)]

ghost use Rattle.std.specs.Prelude.{◌≡◌, ◌↔◌, T};
ghost use Rattle.bits.specs.Rows.{cells_of};
ghost use Rattle.state.specs.Below.{found_below};
ghost use Rattle.state.specs.Stands.{site};
ghost use Rattle.soundness.specs.Sound.{Valid};
ghost use Rattle.soundness.specs.Tests.{is_valid};
ghost use Rattle.validity.specs.Parts.{valid_for, lacking};

use state::State;

// The first object with a pair, of these or of those, whose area lacks access, if there is one. Every object is asked
// about, listed or not: pairs of one that is not listed count.
pub fn first_lacking(s: &State, these: &[u32; 64], those: &[u32; 64]) -> Option<u8>
    ensures { result ≡ found_below 64 (lacking (site s.now) (cells_of these.now) (cells_of those.now)) }
{
    let transposed = relations::transposed(&s.structure);
    // By number, which is the answer, and picks a row of five relations.
    for o in 0..64u8 {
        let wanted = bits::union(these[o as usize], those[o as usize]);
        if !search::reaches(search::object_of(s, o), &s.structure, &transposed, wanted) {
            return Some(o);
        }
    }
    None
}

// Is the record valid? Any content may be asked about.
pub fn is_valid(s: &State) -> bool
    ensures equation { result ≡ is_valid (site s.now) }
    ensures meaning { T result ↔ Valid (site s.now) }
{
    first_lacking(s, &s.imports, &s.exports).is_none()
}

// Is the record valid as far as one object goes: has each area that imports or exports the object access to it?
#[tactic(auto, using(crate::proofs::Laws::for_by_rows))]
pub fn is_valid_for(s: &State, object: u8) -> bool
    ensures { result ≡ valid_for (site s.now) object }
{
    let o = search::object_of(s, object);
    search::reaches_alone(o, &s.structure, bits::union(o.imported, o.exported))
}
