// How many users, areas, objects and pairs a record has.
#![tactic(auto, unfolding(state::specs::Stands::site))]

ghost use Rattle.std.specs.Prelude.{◌≡◌, ◌≤◌, length};
ghost use Rattle.bits.specs.Rows.{cells_of};
ghost use Rattle.state.specs.Walk.{count};
ghost use Rattle.state.specs.Site.{counts};
ghost use Rattle.state.specs.Stands.{site};

use state::State;

// How many numbers or pairs do the rows hold? No set or relation has more than 64 rows.
#[tactic(auto, using(crate::proofs::Sizes::count_is_sum))]
fn count(rows: &[u32]) -> usize
    requires { length rows.now ≤ 64 }
    ensures { result ≡ count (cells_of rows.now) }
{
    rows.iter().map(|row| bits::size(*row) as usize).sum()
}

// How many users, areas, objects, owner, structure, import and export pairs are there?
pub fn counts(s: &State) -> [usize; 7]
    ensures { result ≡ counts (site s.now) }
{
    [
        count(&s.users),
        count(&s.areas),
        count(&s.objects),
        count(&s.owners),
        count(&s.structure),
        count(&s.imports),
        count(&s.exports),
    ]
}
