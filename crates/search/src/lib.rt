// The search for the areas that an object reaches, layer by layer: each layer is a row of bits.
#![tactic(auto)]

ghost use Rattle.std.specs.Prelude.{◌≡◌, ℕ, suc, Bool};
ghost use Rattle.bits.specs.Bits.{bit, is_subset};
ghost use Rattle.bits.specs.Rows.{cells_of};
ghost use Rattle.state.specs.Stands.{site};
ghost use Rattle.relations.specs.Relations.{transpose};
ghost use Rattle.access.specs.Lending.{lending};
ghost use Rattle.state.specs.Below.{found_below};
ghost use Rattle.access.specs.Answer.{longest, answer, answer_number, least_count};
ghost use Rattle.access.specs.Claims.{Right};
ghost use Rattle.search.specs.Rounds.{object_in, move_by, next_to, all_within, reachable};

use state::State;

// How many steps are looked at: a longer chain gives no access.
pub const LONGEST: u8 = 8;

// The rows of one object: the areas that define it, import it and export it.
#[derive(Clone, Copy)]
pub struct Object {
    pub defined: u32,
    pub imported: u32,
    pub exported: u32,
}

// The rows of an object in a state. A number past the objects has no pair.
pub fn object_of(s: &State, object: u8) -> Object
    ensures { result ≡ object_in s.now object }
{
    Object {
        defined: relations::row_of(&s.definitions, object),
        imported: relations::row_of(&s.imports, object),
        exported: relations::row_of(&s.exports, object),
    }
}

// How an object moves: the areas that it can move to in one step from an area of the layer.
trait Moves {
    ghost move_of: { Self → ℕ → ℕ → Bool };

    fn next(&self, layer: u32) -> u32
        ensures { result ≡ next_to (move_of self.now) layer };
}

// The structure is at hand in both directions.
#[derive(Clone, Copy)]
struct Turned<'a> {
    o: Object,
    structure: &'a [u32; 32],
    transposed: &'a [u32; 32],
}

impl<'a> Moves for Turned<'a> {
    ghost move_of = { λ m. move_by (cells_of m.structure.now) (cells_of m.transposed.now) (bit m.o.imported)
        (bit m.o.exported) };

    // Out of the areas that export the object, and into those that import it.
    #[tactic(auto, using(crate::proofs::OneStep::next_is))]
    fn next(&self, layer: u32) -> u32 {
        let structure = self.structure;
        let transposed = self.transposed;
        let outward = relations::image(structure, bits::intersection(layer, self.o.exported));
        let inward = relations::image(transposed, layer);
        bits::union(outward, bits::intersection(inward, self.o.imported))
    }
}

// An object by itself, for which no transpose is made.
#[derive(Clone, Copy)]
struct Alone<'a> {
    o: Object,
    structure: &'a [u32; 32],
}

impl<'a> Moves for Alone<'a> {
    ghost move_of = { λ m. move_by (cells_of m.structure.now) (transpose (cells_of m.structure.now)) (bit m.o.imported)
        (bit m.o.exported) };

    fn next(&self, layer: u32) -> u32 {
        let structure = self.structure;
        next_alone(layer, structure, self.o.imported, self.o.exported)
    }
}

// One step of an object by itself: the rows of those that import it are looked at.
// The two rows and no Object: a step back is one with imports and exports exchanged.
#[tactic(auto, using(crate::proofs::OneStep::next_is))]
pub fn next_alone(layer: u32, structure: &[u32; 32], imported: u32, exported: u32) -> u32
    ensures { result ≡ next_to (move_by (cells_of structure.now) (transpose (cells_of structure.now))
        (bit imported) (bit exported)) layer }
{
    let outward = relations::image(structure, bits::intersection(layer, exported));
    let inward = relations::preimage(structure, layer, imported);
    bits::union(outward, inward)
}

// The least number of steps in which the object reaches each area that is wanted, if it does.
fn least_steps<M: Moves>(moves: &M, defined: u32, wanted: u32) -> Option<u8>
    ensures { result ≡ found_below (suc longest) (all_within (bit defined) (M.move_of moves.now) wanted) }
{
    let mut layer = defined;
    let mut reached = defined;
    // By number, which is the answer.
    for n in 0..LONGEST {
        if bits::is_subset(wanted, reached) {
            return Some(n);
        }
        let new = bits::difference(moves.next(layer), reached);
        if bits::is_empty(new) {
            return None;
        }
        reached = bits::union(reached, new);
        layer = new;
    }
    if bits::is_subset(wanted, reached) {
        Some(LONGEST)
    } else {
        None
    }
}

// Does the object reach each area that is wanted? The structure comes with its transpose, which `relations::transposed`
// makes once for many objects.
#[tactic(auto, using(crate::proofs::Layers::found_some, crate::proofs::Layers::some_within))]
pub fn reaches(o: Object, structure: &[u32; 32], transposed: &[u32; 32], wanted: u32) -> bool
    ensures { result ≡ is_subset wanted (reachable (bit o.defined) (move_by (cells_of structure.now) (cells_of
        transposed.now) (bit o.imported) (bit o.exported))) }
{
    let moves = Turned {
        o,
        structure,
        transposed,
    };
    least_steps(&moves, o.defined, wanted).is_some()
}

// The same, for an object by itself.
#[tactic(auto, using(crate::proofs::Layers::found_some, crate::proofs::Layers::some_within))]
pub fn reaches_alone(o: Object, structure: &[u32; 32], wanted: u32) -> bool
    ensures { result ≡ is_subset wanted (reachable (bit o.defined) (move_by (cells_of structure.now) (transpose
        (cells_of structure.now)) (bit o.imported) (bit o.exported))) }
{
    let moves = Alone { o, structure };
    least_steps(&moves, o.defined, wanted).is_some()
}

// The answer for one area and object, in a state: the number of steps, or none for no access. A number past the areas
// has no access.
pub fn steps(s: &State, area: u8, object: u8) -> Option<u8>
    ensures equation { result ≡ answer (lending (site s.now) object) area }
    ensures meaning { Right (lending (site s.now) object) area result }
    ensures number { answer_number result ≡ least_count (lending (site s.now) object) area }
{
    if area >= State::AREAS {
        return None;
    }
    let o = object_of(s, object);
    let moves = Alone {
        o,
        structure: &s.structure,
    };
    least_steps(&moves, o.defined, bits::with_bit(0, area, true))
}
