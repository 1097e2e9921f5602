// A record and the tables of a site file: the record that five tables of pairs give, and whether it lists the areas of
// the labels.
#![tactic(auto, unfolding(state::specs::Stands::site))]

ghost use Rattle.std.specs.Prelude.{◌≡◌};
ghost use Rattle.state.specs.Site.{area, members};
ghost use Rattle.state.specs.Stands.{site};
ghost use Rattle.label_tables.specs.Labels.{labels_listed};
ghost use Rattle.site_tables.specs.Tables.{state_by, relations_of};

use state::State;

// The record whose relations have the pairs of the tables, and whose lists are read off them.
// The five come together here alone; a struct of them would be made in one place and taken apart in this one.
pub fn state_of(
    owners: &[u8],
    definitions: &[u8],
    structure: &[u8],
    imports: &[u8],
    exports: &[u8],
) -> State
    ensures { site result ≡ state_by (relations_of owners.now definitions.now structure.now imports.now exports.now) }
{
    let mut s = State::empty();
    pair_tables::fill(&mut s.owners, owners);
    pair_tables::fill(&mut s.definitions, definitions);
    pair_tables::fill(&mut s.structure, structure);
    pair_tables::fill(&mut s.imports, imports);
    pair_tables::fill(&mut s.exports, exports);
    s.users = listing::firsts(&s.owners);
    s.areas = listing::seconds(&s.owners);
    s.objects = listing::firsts(&s.definitions);
    s
}

// Is each labelled area listed?
pub fn labels_listed(s: &State, block: &[u8]) -> bool
    ensures { result ≡ labels_listed (members (site s.now) area) block.now }
{
    label_tables::all_listed(&s.areas, block)
}
