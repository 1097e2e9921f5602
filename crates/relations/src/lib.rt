// A set or a relation as rows of bits: what is read of it, what is written to it, and a relation between areas with
// each pair turned round.
#![tactic(auto)]

ghost use Rattle.std.specs.Prelude.{◌≡◌, ◌<◌, T, length, get_or, set};
ghost use Rattle.bits.specs.Bits.{word, with_bit, intersection};
ghost use Rattle.bits.specs.Rows.{cells_of};
ghost use Rattle.state.specs.Cells.{member, mark, pair, put};
ghost use Rattle.state.specs.Walk.{has_first, has_second};
ghost use Rattle.relations.specs.Relations.{transpose, image};
ghost use Rattle.relations.specs.Turning.{is_mask, even_bit, odd_bit, exchanged};

// The row of a number: the areas that make a pair with it. Past the last row it is the row without places.
pub fn row_of(rows: &[u32], first: u8) -> u32
    ensures { result ≡ get_or rows.now first 0 }
{
    rows.get(first as usize).copied().unwrap_or(0)
}

// Is the number in the set?
pub fn is_member(rows: &[u32], number: u8) -> bool
    ensures { result ≡ member (cells_of rows.now) number }
{
    bits::is_set(row_of(rows, number / 32), number % 32)
}

// Is (first, area) a pair of the relation?
pub fn is_pair(rows: &[u32], first: u8, area: u8) -> bool
    ensures { result ≡ pair (cells_of rows.now) first area }
{
    bits::is_set(row_of(rows, first), area)
}

// Writes a place of a row, or nothing past the last row.
fn write(rows: &mut [u32], at: usize, place: u8, present: bool)
    ensures { rows.new ≡ set rows.old at (with_bit (get_or rows.old at 0) place
        present) }
{
    // By index and not by `get_mut`, after which a proof knows the length alone of what was lent.
    if at < rows.len() {
        let row = bits::with_bit(rows[at], place, present);
        rows[at] = row;
    }
}

// Puts the number into the set, or takes it out.
pub fn mark_in(rows: &mut [u32], number: u8, present: bool)
    ensures { cells_of rows.new ≡ mark (cells_of rows.old) number present }
{
    write(rows, (number / 32) as usize, number % 32, present);
}

// Puts the pair into the relation, or takes it out.
pub fn put_in(rows: &mut [u32], first: u8, area: u8, present: bool)
    ensures { cells_of rows.new ≡ put (cells_of rows.old) first area present }
{
    if area < 32 {
        write(rows, first as usize, area, present);
    }
}

// Is there a pair with this first number?
pub fn in_row(rows: &[u32], first: u8) -> bool
    ensures { result ≡ has_first (cells_of rows.now) first }
{
    !bits::is_empty(row_of(rows, first))
}

// The areas that are the second of some pair.
pub fn seconds(rows: &[u32]) -> u32
    ensures { result ≡ word 32 (has_second (cells_of rows.now)) }
{
    let mut out: u32 = 0;
    for row in rows {
        out = bits::union(out, *row);
    }
    out
}

// Is there a pair with this area?
pub fn in_column(rows: &[u32], area: u8) -> bool
    ensures { result ≡ has_second (cells_of rows.now) area }
{
    bits::is_set(seconds(rows), area)
}

// The areas that a relation between areas leads to from an area of the set.
pub fn image(rows: &[u32; 32], set: u32) -> u32
    ensures { result ≡ image (cells_of rows.now) set }
{
    let mut out: u32 = 0;
    for area in bits::places(set) {
        out = bits::union(out, rows[area as usize]);
    }
    out
}

// The areas of `within` from which a relation between areas leads into the set: those whose row meets it.
pub fn preimage(rows: &[u32; 32], set: u32, within: u32) -> u32
    ensures { result ≡ intersection (image (transpose (cells_of rows.now)) set) within }
{
    let mut out: u32 = 0;
    for area in bits::places(within) {
        let common = bits::intersection(rows[area as usize], set);
        out = bits::with_bit(out, area, !bits::is_empty(common));
    }
    out
}

// The even row of an exchange: the blocks of the mask as they are, and above each the same block of `there`.
fn even_row(here: u32, there: u32, block: usize, mask: u32) -> u32
    requires { (block < 32) × T (is_mask block mask) }
    ensures { result ≡ word 32 (even_bit block mask here there) }
{
    (here & mask) | ((there & mask) << block)
}

// The odd row: the blocks that the mask leaves out as they are, and below each the same block of `there`.
fn odd_row(here: u32, there: u32, block: usize, mask: u32) -> u32
    requires { block < 32 }
    ensures { result ≡ word 32 (odd_bit block mask here there) }
{
    (here & !mask) | ((there >> block) & mask)
}

// One exchange: the rows k and k + 16 give each other half of their blocks, and become the rows 2 * k and 2 * k + 1.
fn exchange(rows: &[u32; 32], block: usize, mask: u32) -> [u32; 32]
    requires { (block < 32) × T (is_mask block mask) }
    ensures { result ≡ exchanged block mask rows.now }
{
    let mut out = [0u32; 32];
    // By index: a turn reads two rows, and writes two others.
    for k in 0..16usize {
        let here = rows[k];
        let there = rows[k + 16];
        out[2 * k] = even_row(here, there, block, mask);
        out[2 * k + 1] = odd_row(there, here, block, mask);
    }
    out
}

// A relation between areas with each pair turned round, by five exchanges: of blocks of 16 places, of 8, 4 and 2, and
// of single places. Each row is moved five times, and is then at its own number again.
pub fn transposed(rows: &[u32; 32]) -> [u32; 32]
    ensures { cells_of result ≡ transpose (cells_of rows.now) }
{
    let by_16 = exchange(rows, 16, 0x0000_ffff);
    let by_8 = exchange(&by_16, 8, 0x00ff_00ff);
    let by_4 = exchange(&by_8, 4, 0x0f0f_0f0f);
    let by_2 = exchange(&by_4, 2, 0x3333_3333);
    exchange(&by_2, 1, 0x5555_5555)
}
