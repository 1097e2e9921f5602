// A row of 32 bits as a set of places 0 to 31.
#![tactic(auto)]

ghost use Rattle.std.specs.Iterator.{at_most};
ghost use Rattle.std.specs.Prelude.{◌≡◌};
ghost use Rattle.bits.specs.Bits.{bit, with_bit, union, intersection, difference, is_empty, is_subset};
ghost use Rattle.bits.specs.Bits.{size, Lowest, lowest, without_lowest, NextPlace, is_single};

// How many places there are.
const PLACES: u8 = 32;

// Is the place in the row? None above 31 is.
pub fn is_set(row: u32, place: u8) -> bool
    ensures { result ≡ bit row place }
{
    if PLACES <= place {
        return false;
    }
    row & (1u32 << place) != 0
}

// The row with the place in it, or without it. A place above 31 changes nothing.
pub fn with_bit(row: u32, place: u8, present: bool) -> u32
    ensures { result ≡ with_bit row place present }
{
    if PLACES <= place {
        return row;
    }
    (row & !(1u32 << place)) | ((present as u32) << place)
}

// The places in either row.
pub fn union(a: u32, b: u32) -> u32
    ensures { result ≡ union a b }
{
    a | b
}

// The places in both rows.
pub fn intersection(a: u32, b: u32) -> u32
    ensures { result ≡ intersection a b }
{
    a & b
}

// The places in the first row that are not in the second.
pub fn difference(a: u32, b: u32) -> u32
    ensures { result ≡ difference a b }
{
    a & !b
}

// Is no place in the row?
pub fn is_empty(row: u32) -> bool
    ensures { result ≡ is_empty row }
{
    row == 0
}

// Is each place of the first row in the second?
pub fn is_subset(a: u32, b: u32) -> bool
    ensures { result ≡ is_subset a b }
{
    a & !b == 0
}

// How many places are in the row?
pub fn size(row: u32) -> u8
    ensures { result ≡ size row }
{
    row.count_ones() as u8
}

// The lowest place in the row, 32 if none is: a number, and no Option, since the claims on `lowest` speak of 32.
pub fn lowest(row: u32) -> u8
    ensures equation { result ≡ lowest row }
    ensures lowest_set { Lowest row result }
{
    row.trailing_zeros() as u8
}

// The row without its lowest place; a row without places stays as it is.
pub fn without_lowest(row: u32) -> u32
    ensures { result ≡ without_lowest row }
{
    if row == 0 {
        return 0;
    }
    row & (row - 1)
}

// Is exactly one place in the row?
pub fn is_single(row: u32) -> bool
    ensures { result ≡ is_single row }
{
    !is_empty(row) & is_empty(without_lowest(row))
}

// The places of a row that are left to walk, the lowest first: what `places` gives.
#[derive(Drop)]
pub struct Walk {
    pub rest: u32,
}

// The places of the row, the lowest first.
pub fn places(row: u32) -> Walk
    ensures { result.rest ≡ row }
{
    Walk { rest: row }
}

impl Iterator for Walk {
    type Item = u8;

    ghost next_gives = { λ before place after. NextPlace before.rest place after.rest };

    // The row gets smaller with each place.
    ghost remaining = { λ left. at_most left.rest };

    #[tactic(auto, using(crate::proofs::Laws::without_lowest_less))]
    fn next(&mut self) -> Option<u8> {
        let row = self.rest;
        if row == 0 {
            return None;
        }
        self.rest = without_lowest(row);
        Some(lowest(row))
    }
}
