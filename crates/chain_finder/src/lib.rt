// Finds the first chain of an object to an area, which is written from the front of a buffer, and the least counts of
// all areas.
#![tactic(auto)]

ghost use Rattle.std.specs.Prelude.{◌≡◌, true, ◌≤◌, length};
ghost use Rattle.bits.specs.Bits.{bit};
ghost use Rattle.state.specs.Stands.{site};
ghost use Rattle.access.specs.Lending.{lending};
ghost use Rattle.access.specs.Answer.{longest, counts_within, least_counts};
ghost use Rattle.chains.specs.First.{is_open, walk, first_chain};
ghost use Rattle.output.specs.Buffer.{laid, place_behind};
ghost use Rattle.chain_finder.specs.Parts.{moves, counted_as, AreLeading};

use search::Object;
use state::State;

// The count of an area without access.
// It is a number and no Option: these counts go into the caller's buffer as they are.
pub const UNREACHED: u8 = 255;

// ---- the counts
// Gives each area of the row the count n.
fn count_as(counts: &mut [u8; 32], areas: u32, n: u8)
    requires { length counts.old ≡ 32 }
    ensures { counts.new ≡ counted_as n areas counts.old }
{
    for area in bits::places(areas) {
        counts[area as usize] = n;
    }
}

// The counts of an object that is given by its rows, layer by layer.
fn counts_of(o: Object, structure: &[u32; 32]) -> [u8; 32]
    ensures { result ≡ counts_within (bit o.defined) (moves o structure.now) longest }
{
    let mut counts = [UNREACHED; 32];
    count_as(&mut counts, o.defined, 0);
    let mut layer = o.defined;
    let mut reached = o.defined;
    // By number, which is the count: what is new after step n has n + 1.
    for n in 0..search::LONGEST {
        let near = search::next_alone(layer, structure, o.imported, o.exported);
        let new = bits::difference(near, reached);
        if bits::is_empty(new) {
            return counts;
        }
        count_as(&mut counts, new, n + 1);
        reached = bits::union(reached, new);
        layer = new;
    }
    counts
}

// The least number of steps of each area, 255 for an area that lacks access.
pub fn least_counts(s: &State, object: u8) -> [u8; 32]
    ensures { result ≡ least_counts (lending (site s.now) object) }
{
    let o = search::object_of(s, object);
    counts_of(o, &s.structure)
}

// ---- the chain
// Writes a chain of n steps to the area: at each place before the last, the lowest of the areas at hand from which the
// steps that are left lead there. Row k has the areas from which k steps lead there.
#[tactic(auto, unfolding(access::specs::Answer::longest))]
fn put_walk<'a>(
    out: &'a mut [u8],
    rows: &'a [u32; 9],
    n: usize,
    o: Object,
    structure: &'a [u32; 32],
    area: u8,
) -> usize
    requires { (n ≤ longest) × AreLeading (moves o structure.now) area n rows.now
        × (is_open (moves o structure.now) area n (bit o.defined) ≡ true) }
    ensures place { result ≡ place_behind 0 (walk (moves o structure.now) area n (bit o.defined)) }
    ensures buffer { out.new ≡ laid (walk (moves o structure.now) area n (bit o.defined)) 0 out.old }
{
    let mut end: usize = 0;
    let mut at_hand = o.defined;
    // By the number of steps that are left, as `walk` is, which is also that of the row.
    for left in (1..n + 1).rev() {
        let open = bits::intersection(at_hand, rows[left]);
        let next = bits::lowest(open);
        end = output::put(out, end, next);
        let only = bits::with_bit(0, next, true);
        at_hand = search::next_alone(only, structure, o.imported, o.exported);
    }
    output::put(out, end, area)
}

// Writes the first chain of the object to the area, and answers how many areas it has: 0 without access, and then
// nothing is written. The areas from which one step more leads to the area are found backwards: a step is gone back by
// a step with imports and exports exchanged. Where there are none, there are none for more steps. The loop counts the
// steps, n, which also says where their row is kept. The answer is a length, so it is 0 and no Option where there is
// no chain.
pub fn put_chain(s: &State, area: u8, object: u8, out: &mut [u8]) -> usize
    ensures place { result ≡ length (first_chain (lending (site s.now) object) area) }
    ensures buffer { out.new ≡ laid (first_chain (lending (site s.now) object) area) 0 out.old }
{
    let o = search::object_of(s, object);
    // A row for each number of steps; nothing here asks for memory.
    let mut rows = [0u32; 9];
    let mut row = bits::with_bit(0, area, true);
    for n in 0..9usize {
        rows[n] = row;
        let starts = bits::intersection(o.defined, row);
        if !bits::is_empty(starts) {
            return put_walk(out, &rows, n, o, &s.structure, area);
        }
        if bits::is_empty(row) {
            return 0;
        }
        row = search::next_alone(row, &s.structure, o.exported, o.imported);
    }
    0
}
