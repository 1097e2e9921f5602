// Finds the first import or export pair whose area lacks access.
#![tactic(auto)]

ghost use Rattle.std.specs.Prelude.{◌≡◌, ◌&&◌, eqb, get_or};
ghost use Rattle.bits.specs.Bits.{bit};
ghost use Rattle.bits.specs.Rows.{cells_of};
ghost use Rattle.state.specs.Below.{found_below};
ghost use Rattle.state.specs.Stands.{site};
ghost use Rattle.access.specs.Answer.{unreached};
ghost use Rattle.reasons.specs.Lost.{first_lost, lost_of};
ghost use Rattle.lost_pairs.specs.Parts.{entry_by};

use reasons::{Entry, Lost};
use state::State;

// The lowest area of the row that lacks access, by the least counts of all areas, if one does.
fn first_area(areas: u32, counts: &[u8; 32]) -> Option<u8>
    ensures { result ≡ found_below 32 (λ a. bit areas a && eqb (get_or counts.now a 0) unreached) }
{
    for area in bits::places(areas) {
        if counts[area as usize] == chain_finder::UNREACHED {
            return Some(area);
        }
    }
    None
}

// The first of the pairs, by object and then by area, whose area lacks access, if there is one.
fn first_of(s: &State, pairs: &[u32; 64]) -> Option<Entry>
    ensures { result ≡ entry_by (site s.now) (cells_of pairs.now) }
{
    let object = validity::first_lacking(s, pairs, pairs)?;
    let counts = chain_finder::least_counts(s, object);
    let area = first_area(relations::row_of(pairs, object), &counts)?;
    Some(Entry { object, area })
}

// The first import pair whose area lacks access; if there is no such import, the first such export pair; or none.
pub fn first_lost(s: &State) -> Option<Lost>
    ensures { result ≡ first_lost (site s.now) }
{
    if let Some(entry) = first_of(s, &s.imports) {
        return Some(Lost::Import(entry));
    }
    let entry = first_of(s, &s.exports)?;
    Some(Lost::Export(entry))
}

// The same of the pairs of one object.
pub fn first_lost_of(s: &State, object: u8) -> Option<Lost>
    ensures { result ≡ lost_of (site s.now) object }
{
    let counts = chain_finder::least_counts(s, object);
    if let Some(area) = first_area(relations::row_of(&s.imports, object), &counts) {
        return Some(Lost::Import(Entry { object, area }));
    }
    let area = first_area(relations::row_of(&s.exports, object), &counts)?;
    Some(Lost::Export(Entry { object, area }))
}
