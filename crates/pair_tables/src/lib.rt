// A table of pairs, as a slice of its own bytes: whether it is in range and ascending, and the relation that it holds.
#![tactic(auto)]

ghost use Rattle.std.specs.Prelude.{◌≡◌, ◌+◌, ◌*◌, ◌≤◌, ◌<◌, length, set};
ghost use Rattle.bits.specs.Rows.{cells_of};
ghost use Rattle.pair_tables.specs.Pairs.{pairs_fit, pairs_ascend, with_pairs};
ghost use Rattle.pair_tables.specs.Numbers.{number_at};

use state::State;

// How many bytes a pair has.
pub const PAIR_SIZE: usize = 2;

// Is the first number of each pair below the limit, and the second that of an area?
pub fn all_fit(table: &[u8], limit: u8) -> bool
    ensures { result ≡ pairs_fit limit table.now }
{
    // By `&` and to the end, so that the compiler compares many bytes at once.
    let mut fits = true;
    for pair in table.chunks_exact(PAIR_SIZE) {
        fits &= (pair[0] < limit) & (pair[1] < State::AREAS);
    }
    fits
}

// The two bytes of a pair as one number, the first as the high one: of two pairs the earlier has the lower number.
fn number_of(pair: &[u8]) -> u16
    requires { length pair.now ≡ 2 }
    ensures { result ≡ number_at pair.now 0 }
{
    u16::from_be_bytes([pair[0], pair[1]])
}

// Does each pair come before the next? The number of the last pair is carried along, so that each pair is read once.
pub fn all_ascend(table: &[u8]) -> bool
    ensures { result ≡ pairs_ascend table.now }
{
    let mut pairs = table.chunks_exact(PAIR_SIZE);
    let Some(first) = pairs.next() else {
        return true;
    };
    let mut last = number_of(first);
    let mut ascends = true;
    for pair in pairs {
        let next = number_of(pair);
        ascends &= last < next;
        last = next;
    }
    ascends
}

// Stores the row of a number, or nothing past the last row.
fn store(rows: &mut [u32], first: u8, row: u32)
    ensures { rows.new ≡ set rows.old first row }
{
    // By index and not by `get_mut`, after which a proof knows the length alone of what was lent.
    let at = first as usize;
    if at < rows.len() {
        rows[at] = row;
    }
}

// The row of `first`, where the row of `at` is at hand in place of the stored one: if it is another's, that is stored.
fn turned(rows: &mut [u32], at: u8, row: u32, first: u8) -> u32
    ensures { set rows.new first result ≡ set rows.old at row }
{
    if first == at {
        return row;
    }
    store(rows, at, row);
    relations::row_of(rows, first)
}

// Puts each pair of the table into the relation. In an ascending table the pairs of a row stand side by side, so the
// row is at hand while they come. It is called and not laid into its caller: for five tables in one function the
// registers would not do.
#[inline(never)]
pub fn fill(rows: &mut [u32], table: &[u8])
    ensures { cells_of rows.new ≡ with_pairs table.now (cells_of rows.old) }
{
    let mut at: u8 = 0;
    let mut row = relations::row_of(rows, 0);
    for pair in table.chunks_exact(PAIR_SIZE) {
        let first = pair[0];
        let own = turned(rows, at, row, first);
        row = bits::with_bit(own, pair[1], true);
        at = first;
    }
    store(rows, at, row);
}
